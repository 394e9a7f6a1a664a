//! Plans, places and maps of small groups.

use crate::check::same;
use crate::messages::{self, Module};
use dsmcc_msg::{Ddb, Dii};
use ssu_group::{
    BlockMap, GroupPlan, Place, Unusable, modules_lie_in_order, places_fill_image,
    twice_is_the_first_that_stood_earlier,
};
use std::alloc::Global;
use std::test::Fail;

/// What a DII with these modules gives.
fn plan(
    alloc: Global,
    block_size: u16,
    bank_len: u32,
    modules: &[Module<'_>],
) -> Result<Result<GroupPlan, Unusable>, Fail> {
    let section = messages::dii(alloc, 2, block_size, modules)?;
    let dii = Dii::read(&section).ok_or("no DII")?;
    Ok(GroupPlan::of(&dii, bank_len))
}

fn refusal(plan: Result<GroupPlan, Unusable>) -> Option<Unusable> {
    match plan {
        Ok(_) => None,
        Err(why) => Some(why),
    }
}

fn place(plan: &GroupPlan, version: u8, block: u16, bytes: &[u8]) -> Option<Place> {
    plan.place(&Ddb {
        download: 2,
        module: 1,
        version,
        block,
        bytes,
    })
}

#[test]
fn each_reason_is_named(rt: HostRuntime) -> Result<(), Fail> {
    let none = b"".as_slice();
    let one: &[Module<'_>] = &[(1, 1, 0, none)];
    // the length of a block and of the bank, the modules, why there is no plan
    let rows: [(u16, u32, &[Module<'_>], Option<Unusable>); 8] = [
        (
            4066,
            8192,
            &[(1, 8193, 0, none)],
            Some(Unusable::TooLong(8193)),
        ),
        (4066, 8192, &[(1, 8192, 0, none)], None),
        (
            4066,
            9,
            &[(1, 1, 0, none), (1, 1, 0, none)],
            Some(Unusable::TwiceModule(1)),
        ),
        (0, 9, one, Some(Unusable::NoBlockSize)),
        (4067, 9, one, Some(Unusable::NoBlockSize)),
        (
            1,
            9,
            &[(7, 65537, 0, none)],
            Some(Unusable::TooManyBlocks(7)),
        ),
        (1, 9, &[(1, 0, 0, none)], Some(Unusable::Empty)),
        // compressed_module with one byte comes before all else
        (
            0,
            9,
            &[(1, 1, 0, none), (3, 1, 0, b"\x09\x01\x00")],
            Some(Unusable::Compressed(3)),
        ),
    ];
    for (block_size, bank_len, modules, why) in rows {
        same(
            &rt,
            &refusal(plan(rt.alloc(), block_size, bank_len, modules)?),
            &why,
        );
    }
    Ok(())
}

#[test]
fn the_last_block_has_what_is_left(rt: HostRuntime) -> Result<(), Fail> {
    let none = b"".as_slice();
    let Ok(two) = plan(rt.alloc(), 4066, 20000, &[(1, 8132, 0, none)])? else {
        panic!(rt; "it can be used");
    };
    same(&rt, &(two.places, two.total), &(2, 8132));
    let Ok(three) = plan(
        rt.alloc(),
        4066,
        20000,
        &[
            (9, 0, 0, none),
            (1, 8133, 0, b"\x05\x04\x03\x76\xE6\xE7".as_slice()),
        ],
    )?
    else {
        panic!(rt; "it can be used");
    };
    same(
        &rt,
        &(three.places, three.total, three.modules.len()),
        &(3, 8133, 2),
    );
    same(
        &rt,
        &place(&three, 0, 2, &[0; 1]),
        &Some(Place {
            number: 2,
            at: 8132,
            len: 1,
        }),
    );
    same(
        &rt,
        &place(&three, 0, 1, &[0; 4066]),
        &Some(Place {
            number: 1,
            at: 4066,
            len: 4066,
        }),
    );
    same(&rt, &place(&three, 0, 0, &[0; 4065]), &None);
    same(&rt, &place(&three, 0, 3, &[0; 1]), &None);
    same(&rt, &place(&three, 1, 2, &[0; 1]), &None);
    let crc = three
        .modules
        .as_slice()
        .last()
        .and_then(|module| module.crc);
    same(&rt, &crc, &Some(0x0376_E6E7));
    Ok(())
}

#[test]
fn a_group_of_506_modules_has_a_place_for_each(rt: HostRuntime) -> Result<(), Fail> {
    let section = messages::dii_of_many(rt.alloc(), 2, 1, 506, 0, &[])?;
    let dii = Dii::read(&section).expect(&rt, "no DII");
    let Ok(plan) = GroupPlan::of(&dii, 506) else {
        panic!(rt; "it can be used");
    };
    same(&rt, &(plan.places, plan.total), &(506, 506));
    Ok(())
}

#[test]
fn a_map_counts_what_is_missing(rt: HostRuntime) -> Result<(), Fail> {
    places_fill_image();
    modules_lie_in_order();
    twice_is_the_first_that_stood_earlier();
    let mut map = BlockMap::new(rt.alloc(), 20)?;
    map.clear(19);
    same(&rt, &map.missing(), &19);
    map.mark(9);
    map.mark(18);
    map.mark(9);
    same(&rt, &map.missing(), &17);
    assert!(rt; map.has(18));
    assert!(rt; !map.has(17));
    map.clear(20);
    same(&rt, &map.missing(), &20);
    assert!(rt; !map.has(9));
    Ok(())
}
