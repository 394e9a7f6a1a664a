//! An image of two modules, whose places come in any order.

ghost use Rattle.std.specs.Prelude.{◌≤◌, IfOk};
ghost use Rattle.group_image.specs.Image.{IsFor};

use crate::check::same;
use crate::messages;
use dsmcc_msg::{Ddb, Dii};
use group_image::{GroupImage, places_join_to_image, whole_image_has_all_bytes};
use ssu_group::GroupPlan;
use std::alloc::Global;
use std::test::Fail;

/// A plan in blocks of four bytes: module 1 of five bytes, module 2 of three.
fn plan(alloc: Global) -> Result<GroupPlan, Fail>
    ensures { IfOk result (λ plan. plan.total ≤ 8) }
{
    let section = messages::dii(alloc, 2, 4, &[(1, 5, 0, &[]), (2, 3, 0, &[])])?;
    let dii = Dii::read(&section).ok_or("no DII")?;
    match GroupPlan::of(&dii, 8) {
        Ok(plan) => Ok(plan),
        Err(_) => Err("it can be used".into()),
    }
}

/// Offers a block, if it fills a place.
fn offer(image: &mut GroupImage, plan: &GroupPlan, id: u16, block: u16, bytes: &[u8])
    requires { IsFor plan.now image.old }
    ensures { IsFor plan.now image.new }
{
    let ddb = Ddb {
        download: 2,
        module: id,
        version: 0,
        block,
        bytes,
    };
    if let Some(place) = plan.place(&ddb) {
        image.offer(place, bytes);
    }
}

#[test]
fn places_come_in_any_order(rt: HostRuntime) -> Result<(), Fail> {
    places_join_to_image();
    whole_image_has_all_bytes();
    let plan = plan(rt.alloc())?;
    let mut image = GroupImage::new(rt.alloc(), &plan)?;
    same(&rt, &image.missing(), &3);
    // module, block, bytes, how many are missing then
    let rows: [(u16, u16, &[u8], u32); 6] = [
        (2, 0, b"678", 2),
        (1, 1, b"5", 1),
        (1, 1, b"x", 1),
        (1, 2, b"x", 1),
        (1, 0, b"123", 1),
        (1, 0, b"1234", 0),
    ];
    for (id, block, bytes, missing) in rows {
        offer(&mut image, &plan, id, block, bytes);
        same(&rt, &image.missing(), &missing);
    }
    same(&rt, &image.bytes(), &b"12345678".as_slice());
    // CRC-32/MPEG-2 of the text 678
    for module in plan.modules.as_slice() {
        let end = u64::from(module.at) + u64::from(module.size);
        if module.id == 2 && end <= u64::from(plan.total) {
            same(&rt, &image.module_crc(module), &ts_crc::crc(b"678"));
        }
    }
    let bytes = image.into_bytes();
    same(&rt, &bytes.as_slice(), &b"12345678".as_slice());
    Ok(())
}

#[test]
fn a_group_begins_without_places(rt: HostRuntime) -> Result<(), Fail> {
    let plan = plan(rt.alloc())?;
    let mut image = GroupImage::with_room(rt.alloc(), 8)?;
    same(&rt, &image.missing(), &0);
    image.start(&plan);
    same(&rt, &image.missing(), &3);
    same(&rt, &image.bytes().len(), &8);
    Ok(())
}
