//! Format, boot and install over a flash in memory, also where the power goes, and what is refused.

use crate::check::{same, same_at};
use flash_bank::{Bank, BankFault, BootFault, FlashFault, FormatFault, Record, boot, format};
use flash_dev::{Flash, MemFlash, Tear};
use ssu_compat::SwId;
use ssu_io::MemSink;
use std::alloc::{AllocError, Global};
use std::test::Fail;

const OLD: SwId = SwId {
    model: 1,
    version: 1,
};

const NEW: SwId = SwId {
    model: 1,
    version: 2,
};

// A record of an image of 3 bytes.
const fn record(number: u32, bank: u8) -> Record {
    Record {
        layout: 1,
        number,
        bank,
        length: 3,
        software: OLD,
        group: 0,
    }
}

// The 64 bytes of a record: each of its 32 bytes b stands as the pair b, 255 - b.
fn in_pairs(head: Record) -> [u8; 64] {
    let mut plain = [0u8; 32];
    put(&mut plain, 0, b"SSU1");
    put(&mut plain, 4, &head.number.to_be_bytes());
    put(&mut plain, 8, &[head.bank]);
    put(&mut plain, 12, &head.length.to_be_bytes());
    put(&mut plain, 16, &head.software.model.to_be_bytes());
    put(&mut plain, 18, &head.software.version.to_be_bytes());
    put(&mut plain, 20, &head.group.to_be_bytes());
    let mut pairs = [0u8; 64];
    for (i, byte) in plain.iter().enumerate() {
        put(&mut pairs, i.saturating_mul(2), &[*byte, 255 - *byte]);
    }
    pairs
}

// Six blocks of 256 bytes with these records. Bank 0 begins with [1, 2, 3] and bank 1 with [4, 5, 6].
fn contents(
    alloc: Global,
    first: Option<Record>,
    second: Option<Record>,
) -> Result<Vec<u8>, AllocError> {
    let mut held = vec![in alloc; 255u8; 1536]?;
    if let Some(head) = first {
        put(&mut held, 0, &in_pairs(head));
    }
    if let Some(head) = second {
        put(&mut held, 256, &in_pairs(head));
    }
    put(&mut held, 512, &[1, 2, 3]);
    put(&mut held, 1024, &[4, 5, 6]);
    Ok(held)
}

// Writes bytes over others, as far as there are any.
fn put(held: &mut [u8], at: usize, bytes: &[u8]) {
    for (i, byte) in bytes.iter().enumerate() {
        if let Some(place) = held.get_mut(at.saturating_add(i)) {
            *place = *byte;
        }
    }
}

// A flash with these contents, if they are six blocks of 256 bytes.
fn flash_with(alloc: Global, held: &[u8]) -> Result<MemFlash, Fail> {
    if held.len() != 1536 {
        return Err(Fail::from("six blocks of 256 bytes"));
    }
    Ok(MemFlash::holding(alloc, held, 256, 64)?)
}

// Puts an image into the spare bank and commits it, as far as the flash does not fail.
pub(crate) fn install<F: Flash>(flash: &mut F, image: &[u8]) -> Result<(), FlashFault> {
    let mut bank = Bank::open(flash).map_err(|_| FlashFault)?;
    if image.len() > bank.bank_len() as usize {
        return Err(FlashFault);
    }
    bank.begin(flash)?;
    bank.fill(flash, 0, image)?;
    bank.commit(flash, image.len() as u32, NEW, 7)
}

// What boot takes of these contents.
fn booted(alloc: Global, held: &[u8]) -> Result<(Record, Vec<u8>), Fail> {
    let mut flash = flash_with(alloc, held)?;
    let mut sink = MemSink::new(alloc, Vec::new(alloc));
    let head = boot(&mut flash, &mut sink)?;
    Ok((head, sink.into_bytes()))
}

#[test]
fn format_writes_the_stated_record(rt: HostRuntime) -> Result<(), Fail> {
    let mut flash = MemFlash::blank(rt.alloc(), 6, 4096, 64)?;
    let head = format(&mut flash, b"hello", NEW)?;
    same(
        &rt,
        &(head.number, head.bank, head.length, head.group),
        &(1, 0, 5, 0),
    );
    let front = flash.contents().get(..16).expect(&rt, "16 bytes");
    let stated = [
        0x53, 0xAC, 0x53, 0xAC, 0x55, 0xAA, 0x31, 0xCE, 0x00, 0xFF, 0x00, 0xFF, 0x00, 0xFF, 0x01,
        0xFE,
    ];
    same(&rt, &front, &stated.as_slice());
    let mut sink = MemSink::new(rt.alloc(), Vec::new(rt.alloc()));
    same(&rt, &boot(&mut flash, &mut sink)?, &head);
    same(&rt, &sink.bytes(), &b"hello".as_slice());
    Ok(())
}

#[test]
fn boot_takes_the_greater_number_wherever_it_stands(rt: HostRuntime) -> Result<(), Fail> {
    let held = contents(rt.alloc(), Some(record(4, 0)), Some(record(9, 1)))?;
    let (head, image) = booted(rt.alloc(), &held)?;
    same(&rt, &head, &record(9, 1));
    same(&rt, &image.as_slice(), &[4, 5, 6].as_slice());

    let held = contents(rt.alloc(), Some(record(9, 0)), Some(record(4, 1)))?;
    let (head, image) = booted(rt.alloc(), &held)?;
    same(&rt, &head, &record(9, 0));
    same(&rt, &image.as_slice(), &[1, 2, 3].as_slice());
    Ok(())
}

#[test]
fn an_image_is_installed_over_the_spare_bank(rt: HostRuntime) -> Result<(), Fail> {
    let held = contents(rt.alloc(), Some(record(4, 0)), Some(record(3, 1)))?;
    let mut flash = flash_with(rt.alloc(), &held)?;
    let image = [9u8; 300];
    install(&mut flash, &image)?;
    let (head, taken) = booted(rt.alloc(), flash.contents())?;
    same(
        &rt,
        &(
            head.number,
            head.bank,
            head.length,
            head.software,
            head.group,
        ),
        &(5, 1, 300, NEW, 7),
    );
    same(&rt, &taken.as_slice(), &image.as_slice());

    let mut bank = Bank::open(&mut flash)?;
    same(&rt, &bank.current(), &head);
    if bank.bank_len() == 512 {
        let mut buf = [0u8; 4];
        bank.peek(&mut flash, 0, &mut buf)?;
        same(&rt, &buf.as_slice(), &[1, 2, 3, 255].as_slice());
    }
    Ok(())
}

// The calls that change the flash: the erase of the spare record block, of two bank blocks, two pieces of the
// image, and the record.
const CALLS: u32 = 6;

#[test]
fn a_stop_leaves_the_former_image_or_the_whole_new_one(rt: HostRuntime) -> Result<(), Fail> {
    let held = contents(rt.alloc(), Some(record(4, 0)), Some(record(3, 1)))?;
    let image = [9u8; 300];
    for call in 1..=CALLS {
        for n in 0..=67u32 {
            // Front(0) to Front(64), and three drifts
            let tear = match n {
                65 => Tear::Drift(0),
                66 => Tear::Drift(85),
                67 => Tear::Drift(200),
                _ => Tear::Front(n),
            };
            let mut flash = flash_with(rt.alloc(), &held)?;
            flash.stop_at(call, tear);
            assert!(rt;
                install(&mut flash, &image).is_err(),
                "call {call} {tear:?}"
            );
            let (head, taken) = booted(rt.alloc(), flash.contents())?;
            // The record's last byte is 255, so with 63 of its bytes it is whole.
            let is_whole = call == CALLS && (n == 63 || n == 64);
            same(
                &rt,
                &(call, tear, head.number),
                &(call, tear, if is_whole { 5 } else { 4 }),
            );
            let expected = if is_whole {
                image.as_slice()
            } else {
                [1, 2, 3].as_slice()
            };
            same(
                &rt,
                &(call, tear, taken.as_slice()),
                &(call, tear, expected),
            );
        }
    }
    Ok(())
}

// The first bytes of the spare record block and of both blocks of the spare bank, once so many calls are done.
const DONE: [[Option<u8>; 3]; 6] = [
    [Some(0x53), Some(4), Some(7)],
    [Some(255), Some(4), Some(7)],
    [Some(255), Some(255), Some(7)],
    [Some(255), Some(255), Some(255)],
    [Some(255), Some(9), Some(255)],
    [Some(255), Some(9), Some(9)],
];

fn firsts(held: &[u8]) -> [Option<u8>; 3] {
    [
        held.get(256).copied(),
        held.get(1024).copied(),
        held.get(1280).copied(),
    ]
}

#[test]
fn blocks_are_erased_in_ascending_order_and_the_record_comes_last(
    rt: HostRuntime,
) -> Result<(), Fail> {
    let mut held = contents(rt.alloc(), Some(record(4, 0)), Some(record(3, 1)))?;
    put(&mut held, 1280, &[7]);
    for call in 1..=CALLS {
        let mut flash = flash_with(rt.alloc(), &held)?;
        flash.stop_at(call, Tear::Front(0));
        assert!(rt; install(&mut flash, &[9u8; 300]).is_err(), "call {call}");
        same(
            &rt,
            &(call, firsts(flash.contents())),
            &(call, DONE[call as usize - 1]),
        );
    }
    Ok(())
}

fn refusal(opened: Result<Bank, BankFault>) -> Option<BankFault> {
    match opened {
        Ok(_) => None,
        Err(fault) => Some(fault),
    }
}

fn opens(alloc: Global, held: &[u8]) -> Result<Option<BankFault>, Fail> {
    let mut flash = flash_with(alloc, held)?;
    let fault = refusal(Bank::open(&mut flash));
    if flash.contents() == held {
        Ok(fault)
    } else {
        Err(Fail::from("the contents have changed"))
    }
}

#[test]
fn bad_contents_are_refused_and_left_as_they_were(rt: HostRuntime) -> Result<(), Fail> {
    let alloc = rt.alloc();
    let blank = contents(alloc, None, None)?;
    same_at(
        &rt,
        "no record",
        &opens(alloc, &blank)?,
        &Some(BankFault::Foreign),
    );

    let same = contents(alloc, Some(record(4, 0)), Some(record(4, 1)))?;
    same_at(
        &rt,
        "the same number twice",
        &opens(alloc, &same)?,
        &Some(BankFault::Foreign),
    );

    let swapped = contents(alloc, Some(record(4, 1)), None)?;
    same_at(
        &rt,
        "the bank of the other block",
        &opens(alloc, &swapped)?,
        &Some(BankFault::Foreign),
    );

    let worn = contents(alloc, Some(record(4_294_967_295, 0)), None)?;
    same_at(
        &rt,
        "the greatest number",
        &opens(alloc, &worn)?,
        &Some(BankFault::Worn),
    );

    let mut most = record(4, 0);
    most.length = 512;
    let full = contents(alloc, Some(most), None)?;
    same_at(&rt, "a full bank", &opens(alloc, &full)?, &None);
    most.length = 513;
    let long = contents(alloc, Some(most), None)?;
    same_at(
        &rt,
        "one byte past the bank",
        &opens(alloc, &long)?,
        &Some(BankFault::Foreign),
    );

    // The pair 47 B8 is whole, 57 B8 sums to 271 and 47 A8 to 239.
    let sound = contents(alloc, Some(record(3, 0)), Some(record(0x47, 1)))?;
    let mut torn = sound.clone()?;
    put(&mut torn, 256 + 14, &[0x57, 0xB8]);
    let (head, _) = booted(alloc, &torn)?;
    same_at(
        &rt,
        "a torn pair makes its record invalid",
        &head.number,
        &3,
    );
    let mut below = sound.clone()?;
    put(&mut below, 256 + 14, &[0x47, 0xA8]);
    same_at(
        &rt,
        "a pair below 255",
        &opens(alloc, &below)?,
        &Some(BankFault::Foreign),
    );
    Ok(())
}

#[test]
fn a_wrong_geometry_is_refused(rt: HostRuntime) -> Result<(), Fail> {
    let alloc = rt.alloc();
    let mut small = MemFlash::blank(alloc, 3, 256, 0)?;
    same_at(
        &rt,
        "3 blocks",
        &refusal(Bank::open(&mut small)),
        &Some(BankFault::Geometry),
    );
    same_at(
        &rt,
        "3 blocks",
        &format(&mut small, &[], OLD),
        &Err(FormatFault::Geometry),
    );
    let mut large = MemFlash::blank(alloc, 65_537, 256, 0)?;
    same_at(
        &rt,
        "65,537 blocks",
        &refusal(Bank::open(&mut large)),
        &Some(BankFault::Geometry),
    );
    let mut odd = MemFlash::blank(alloc, 4, 300, 0)?;
    let mut sink = MemSink::new(alloc, Vec::new(alloc));
    same_at(
        &rt,
        "blocks of 300 bytes",
        &boot(&mut odd, &mut sink),
        &Err(BootFault::Geometry),
    );

    let mut least = MemFlash::blank(alloc, 4, 4096, 0)?;
    same_at(
        &rt,
        "nothing is formatted",
        &boot(&mut least, &mut sink),
        &Err(BootFault::Foreign),
    );
    same_at(
        &rt,
        "one byte too long",
        &format(&mut least, &[0; 4097], OLD),
        &Err(FormatFault::NoFit),
    );
    Ok(())
}
