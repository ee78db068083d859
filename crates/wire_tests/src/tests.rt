//! The spellings of numbers and texts against worked ones.

use mk_base::list::List;
use mk_base::memory::NoMemory;
use std::alloc::Global;
use wire::get::{get_num, get_text};
use wire::put::{put_num, put_text};

fn writes_number(alloc: Global, number: u32, bytes: &[u8]) -> Result<bool, NoMemory> {
    let mut out = List::new(alloc);
    put_num(&mut out, number as u64)?;
    Ok(out.as_slice() == bytes)
}

#[test]
fn numbers_take_the_fewest_bytes(rt: HostRuntime) {
    let alloc = rt.alloc();
    assert!(rt; writes_number(alloc, 0, &[0x00]) == Ok(true));
    assert!(rt; writes_number(alloc, 1, &[0x01]) == Ok(true));
    assert!(rt; writes_number(alloc, 127, &[0x7f]) == Ok(true));
    assert!(rt; writes_number(alloc, 128, &[0x80, 0x01]) == Ok(true));
    assert!(rt; writes_number(alloc, 300, &[0xac, 0x02]) == Ok(true));
    assert!(rt; writes_number(alloc, 16383, &[0xff, 0x7f]) == Ok(true));
    assert!(rt; writes_number(alloc, 16384, &[0x80, 0x80, 0x01]) == Ok(true));
    assert!(rt; writes_number(alloc, 4294967295, &[0xff, 0xff, 0xff, 0xff, 0x0f]) == Ok(true));
}

#[test]
fn texts_stand_behind_their_length(rt: HostRuntime) {
    let mut out = List::new(rt.alloc());
    assert!(rt; put_text(&mut out, b"abc") == Ok(()));
    assert!(rt; out.as_slice() == [0x03, 0x61, 0x62, 0x63].as_slice());
}

fn reads_number(bytes: &[u8], at: usize, number: u32, end: usize) -> bool {
    get_num(bytes, at) == Some((number as u64, end))
}

#[test]
fn numbers_are_read_in_their_one_spelling(rt: HostRuntime) {
    assert!(rt; reads_number(&[0x00], 0, 0, 1));
    assert!(rt; reads_number(&[0x7f, 0x01], 0, 127, 1));
    assert!(rt; reads_number(&[0x7f, 0x01], 1, 1, 2));
    assert!(rt; reads_number(&[0x80, 0x01], 0, 128, 2));
    assert!(rt; reads_number(&[0xac, 0x02, 0x05], 0, 300, 2));
    assert!(rt; reads_number(&[0xff, 0xff, 0xff, 0xff, 0x0f], 0, 4294967295, 5));
}

#[test]
fn no_other_spelling_is_a_number(rt: HostRuntime) {
    assert!(rt; get_num(&[], 0) == None);
    assert!(rt; get_num(&[0x05], 1) == None);
    assert!(rt; get_num(&[0x05], 2) == None);
    assert!(rt; get_num(&[0x80], 0) == None);
    assert!(rt; get_num(&[0x80, 0x00], 0) == None);
    assert!(rt; get_num(&[0xff, 0x80, 0x00], 0) == None);
    assert!(rt; get_num(&[0xff, 0xff, 0xff, 0xff, 0x10], 0) == None);
    assert!(rt; get_num(&[0x80, 0x80, 0x80, 0x80, 0x80, 0x01], 0) == None);
}

#[test]
fn texts_are_read_where_they_are_whole(rt: HostRuntime) {
    assert!(rt; get_text(&[0x00], 0) == Some((1, 1)));
    assert!(rt; get_text(&[0x09, 0x02, 0xc3, 0xa9, 0x41], 1) == Some((2, 4)));
    assert!(rt; get_text(&[0x02, 0xc3, 0x41], 0) == None);
    assert!(rt; get_text(&[0x02, 0x41], 0) == None);
    assert!(rt; get_text(&[0x81, 0x00, 0x41], 0) == None);
}
