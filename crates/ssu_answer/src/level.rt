//! The levels of the way to an update.
ghost use Rattle.std.specs.Prelude.{◌≡◌};
ghost use Rattle.ssu_answer.specs.Levels.{name_of, number_of};

/// The seven levels between a transport stream and the modules of an update. Each stands on the value of the one below.
#[derive(Clone, Copy, Debug, PartialEq, Eq)]
pub enum Level {
    /// 1: the services to which linkage descriptors lead.
    Linkage,
    /// 2: the program of one of these services.
    Program,
    /// 3: the stream of the program that tells of the update.
    Component,
    /// 4: the entries of the Update Notification Table that are for the box.
    Notice,
    /// 5: the carousel of an update that may be taken now.
    Window,
    /// 6: the groups of the carousel that the box accepts.
    Group,
    /// 7: the modules of the first of these groups that can be used.
    Modules,
}

impl Level {
    /// The number of the level, 1 to 7.
    pub fn number(self) -> u8
        ensures { result ≡ number_of self }
    {
        match self {
            Level::Linkage => 1,
            Level::Program => 2,
            Level::Component => 3,
            Level::Notice => 4,
            Level::Window => 5,
            Level::Group => 6,
            Level::Modules => 7,
        }
    }

    /// Its name, as it is printed.
    pub fn name(self) -> &'static str
        ensures { result.now ≡ name_of self }
    {
        match self {
            Level::Linkage => "linkage",
            Level::Program => "program",
            Level::Component => "component",
            Level::Notice => "notice",
            Level::Window => "window",
            Level::Group => "group",
            Level::Modules => "modules",
        }
    }
}
