use super::{expect_each, joined};
use crate::Reason;
use std::test::Fail;

/// A script of DES sealing with two levels.
const SEALED: &str = "dss 1\nseal des\nlevel U 0 -\nlevel S 2 a\n";

const FIRST: &str = "key U 2020202020202020 3030303030303030\n";

const SECOND: &str = "key S 6060606060606060 7070707070707070\n";

const GUARD: &str = "guard 8080808080808080 9090909090909090\n";

#[test]
fn refuses_keys_of_one_level(rt: HostRuntime) -> Result<(), Fail> {
    let head = joined(rt.alloc(), &["dss 1\nseal des\nlevel U 0 -\n"])?;
    let lines = "key U 133457799BBCDFF1 0123456789abcdef\n\
         key U 133457799bbcdff 0123456789abcdef\n\
         key U 133457799bbcdff10 0123456789abcdef\n\
         key U - 0123456789abcdef\n\
         key U 133457799bbcdff1\n\
         key U 133457799bbcdff1 0123456789abcdef 00\n\
         key u 133457799bbcdff1 0123456789abcdef";
    expect_each(&rt, rt.alloc(), &head, 4, lines, Reason::Form)?;
    let lines = "guard 133457799bbcdff1 0123456789abcdef\n\
         host 1 U\n\
         store U true\n\
         begin\n\
         seal des";
    expect_each(&rt, rt.alloc(), &head, 4, lines, Reason::Place)?;
    expect_each(
        &rt,
        rt.alloc(),
        &head,
        4,
        "key T 0000000000000000 133457799bbcdff1",
        Reason::Name,
    )?;
    let lines = "key U 0000000000000000 133457799bbcdff1\n\
         key U 133457799bbcdff1 123456789abcdef0\n\
         key U 133457799bbcdff1 fefefefefefefefe\n\
         key U e1e1e1e1f0f0f0f0 133457799bbcdff1\n\
         key U 133457799bbcdff1 1f1f1f1f0e0e0e0e";
    expect_each(&rt, rt.alloc(), &head, 4, lines, Reason::Key)?;
    let lines = "key U 133457799bbcdff1 0123456789abcdef\n\
         level T 1 -";
    expect_each(&rt, rt.alloc(), &head, 4, lines, Reason::End)?;
    Ok(())
}

#[test]
fn keys_stand_in_the_order_of_levels(rt: HostRuntime) -> Result<(), Fail> {
    let head = joined(rt.alloc(), &[SEALED])?;
    expect_each(
        &rt,
        rt.alloc(),
        &head,
        5,
        "guard 2020202020202020 3030303030303030",
        Reason::Place,
    )?;
    let lines = "key S 2020202020202020 3030303030303030\n\
         key T 2020202020202020 3030303030303030";
    expect_each(&rt, rt.alloc(), &head, 5, lines, Reason::Name)?;
    expect_each(
        &rt,
        rt.alloc(),
        &head,
        5,
        "key U 2020202020202020 3030303030303030",
        Reason::End,
    )?;
    let head = joined(rt.alloc(), &[SEALED, FIRST])?;
    let lines = "guard 6060606060606060 7070707070707070\n\
         level T 1 -\n\
         host 1 U";
    expect_each(&rt, rt.alloc(), &head, 6, lines, Reason::Place)?;
    expect_each(
        &rt,
        rt.alloc(),
        &head,
        6,
        "key U 6060606060606060 7070707070707070",
        Reason::Name,
    )?;
    let lines = "key S 2020202020202020 6060606060606060\n\
         key S 6060606060606060 3131313131313131";
    expect_each(&rt, rt.alloc(), &head, 6, lines, Reason::Key)?;
    expect_each(
        &rt,
        rt.alloc(),
        &head,
        6,
        "key S 6060606060606060 7070707070707070",
        Reason::End,
    )?;
    Ok(())
}

#[test]
fn the_guarantors_keys_stand_behind_all_others(rt: HostRuntime) -> Result<(), Fail> {
    let head = joined(rt.alloc(), &[SEALED, FIRST, SECOND])?;
    expect_each(
        &rt,
        rt.alloc(),
        &head,
        7,
        "guard 8080808080808080",
        Reason::Form,
    )?;
    let lines = "key U 8080808080808080 9090909090909090\n\
         begin\n\
         host 1 U\n\
         store U true\n\
         end";
    expect_each(&rt, rt.alloc(), &head, 7, lines, Reason::Place)?;
    let lines = "guard 6060606060606060 8080808080808080\n\
         guard 8080808080808080 8080808080808080\n\
         guard 0101010101010101 8080808080808080\n\
         guard 8080808080808080 3030303030303030";
    expect_each(&rt, rt.alloc(), &head, 7, lines, Reason::Key)?;
    expect_each(
        &rt,
        rt.alloc(),
        &head,
        7,
        "guard 8080808080808080 9090909090909090",
        Reason::End,
    )?;
    let head = joined(rt.alloc(), &[SEALED, FIRST, SECOND, GUARD])?;
    let lines = "guard 8080808080808080 9090909090909090\n\
         key U 8080808080808080 9090909090909090\n\
         level T 1 -\n\
         seal des";
    expect_each(&rt, rt.alloc(), &head, 8, lines, Reason::Place)?;
    let lines = "host 1 U\n\
         store U true\n\
         begin";
    expect_each(&rt, rt.alloc(), &head, 8, lines, Reason::End)?;
    Ok(())
}

#[test]
fn keys_stand_under_des_alone(rt: HostRuntime) -> Result<(), Fail> {
    let head = joined(rt.alloc(), &["dss 1\n"])?;
    let lines = "seal clear\n\
         seal\n\
         seal des des";
    expect_each(&rt, rt.alloc(), &head, 2, lines, Reason::Form)?;
    let lines = "store U true\n\
         key U 2020202020202020 3030303030303030";
    expect_each(&rt, rt.alloc(), &head, 2, lines, Reason::Place)?;
    expect_each(&rt, rt.alloc(), &head, 2, "seal des", Reason::End)?;
    let head = joined(rt.alloc(), &["dss 1\nlevel U 0 -\n"])?;
    let lines = "seal des\n\
         key U 2020202020202020 3030303030303030\n\
         guard 2020202020202020 3030303030303030";
    expect_each(&rt, rt.alloc(), &head, 3, lines, Reason::Place)?;
    expect_each(&rt, rt.alloc(), &head, 3, "store U true", Reason::End)?;
    Ok(())
}
