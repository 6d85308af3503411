//! Pages in raw memory: how much they take, when they are sealed, and the pool of those that are used again.

use crate::items::pooled;
use a64_word::Words;
use lfi_image::JudgedPage;
use lfi_module::PageSize;
use page_buf::{OpenPage, Pool, PoolMember, SealedPage};
use std::marker::Send;
use std::process::Abort;
use std::thread::{self, Threads};

/// Whether a page is sealed as a full one.
fn is_full(page: OpenPage, size: PageSize) -> bool {
    let len = size.bytes() as usize;
    let is_long = page.len() == len && !page.is_empty();
    match page.seal() {
        Ok(page) => {
            let want = [size.words() as usize, len];
            [page.len_words(), page.bytes().len()] == want && is_long
        }
        Err(_) => false,
    }
}

/// Writes a number of bytes at a time to a page of this size: whether as many of each are taken, and the page is full then.
fn is_filled(rt: &(impl Abort + AllocGlobal), size: PageSize, writes: &[(usize, usize)]) -> bool {
    let bytes = [7; 16_000];
    let mut page = OpenPage::new(rt.alloc(), size).expect(rt, "no page");
    let mut all = page.is_empty();
    for (count, taken) in writes {
        all = page.write(&bytes[..(*count).min(16_000)]) == *taken && all;
    }
    is_full(page, size) && all
}

#[test]
fn a_write_takes_what_fits(rt: HostRuntime) {
    let small = [(3, 3), (4000, 4000), (200, 93), (4000, 0)];
    assert!(rt; is_filled(&rt, PageSize::SMALL, &small));
    // A large page takes four times as much.
    let large = [(16_000, 16_000), (16_000, 384), (16_000, 0)];
    assert!(rt; is_filled(&rt, PageSize::LARGE, &large));
}

/// Whether pages of no bytes and of six are given back, and one of eight is sealed.
fn is_sealed_at_eight(page: OpenPage) -> bool {
    let Err(mut page) = page.seal() else {
        return false;
    };
    page.write(&[1, 2, 3, 4, 5, 6]);
    let Err(mut page) = page.seal() else {
        return false;
    };
    let taken = page.write(&[7, 8]);
    match page.seal() {
        Ok(page) => taken == 2 && page.bytes() == [1, 2, 3, 4, 5, 6, 7, 8].as_slice(),
        Err(_) => false,
    }
}

#[test]
fn half_a_word_is_not_sealed(rt: HostRuntime) {
    let page = OpenPage::new(rt.alloc(), PageSize::SMALL).expect(&rt, "no page");
    assert!(rt; is_sealed_at_eight(page));
}

// RET is the bytes C0 03 5F D6, and NOP 1F 20 03 D5.
#[test]
fn words_are_read_lowest_byte_first(rt: HostRuntime) {
    let bytes = [0xC0, 0x03, 0x5F, 0xD6, 0x1F, 0x20, 0x03, 0xD5];
    let page = SealedPage::of(rt.alloc(), PageSize::SMALL, &bytes).expect(&rt, "no page");
    let words = [SealedPage::word(&page, 0), SealedPage::word(&page, 1)];
    let same = [Words::word(&page, 0), Words::word(&page, 1)];
    let want = [0xD65F_03C0, 0xD503_201F];
    let counts = [page.count(), page.len_words()];
    assert!(rt; counts == [2, 2] && words == want && same == want);
}

fn needs_send<T: Send>() {}

#[test]
fn pages_move_between_threads(_: HostRuntime) {
    needs_send::<OpenPage>();
    needs_send::<SealedPage>();
    needs_send::<JudgedPage>();
}

#[test]
fn a_new_pool_has_no_page(rt: HostRuntime) {
    let (pool, mut seats) = Pool::new(rt.alloc(), 2).expect(&rt, "no pool");
    let count = seats.len();
    let mut none = true;
    for seat in &mut seats {
        none = pool.get(seat).is_none() && none;
    }
    assert!(rt; none && count == 2);
}

/// Gives a page of these bytes: nothing where the pool takes it, and otherwise whether it comes back as it was.
fn given(
    rt: &(impl Abort + AllocGlobal),
    member: &mut PoolMember,
    size: PageSize,
    bytes: &[u8],
) -> Option<bool> {
    let mut page = OpenPage::new(rt.alloc(), size).expect(rt, "no page");
    page.write(bytes);
    let Ok(page) = page.seal() else {
        panic!(rt; "the page was not sealed")
    };
    match member.give(page) {
        Ok(()) => None,
        Err(back) => Some(back.bytes() == bytes),
    }
}

/// Gives small pages of 4,096 bytes, `pages` of them: whether the pool takes all.
fn takes(rt: &(impl Abort + AllocGlobal), member: &mut PoolMember, pages: u32) -> bool {
    let mut all = true;
    for _ in 0..pages {
        all = given(rt, member, PageSize::SMALL, &[7; 4096]).is_none() && all;
    }
    all
}

/// Gets a page from the pool and writes it: whether there is one, it was empty and has then these bytes alone.
fn is_used_again(member: &mut PoolMember) -> bool {
    let Some(mut page) = member.get() else {
        return false;
    };
    let was_empty = page.is_empty();
    page.write(&[9, 8, 7, 6]);
    match page.seal() {
        Ok(page) => was_empty && page.bytes() == [9, 8, 7, 6].as_slice(),
        Err(_) => false,
    }
}

/// Whether `pages` pages are got and written, and the next one is none.
fn are_used_again(mut member: PoolMember, pages: u32) -> bool {
    let mut all = true;
    for _ in 0..pages {
        all = is_used_again(&mut member) && all;
    }
    all && member.get().is_none()
}

#[test]
fn sixty_four_pages_lie_in_a_pool(rt: HostRuntime) {
    let mut member = PoolMember::new(rt.alloc()).expect(&rt, "no pool");
    let taken = takes(&rt, &mut member, 64);
    let more = given(&rt, &mut member, PageSize::SMALL, &[1, 2, 3, 4]);
    let other = member.another().expect(&rt, "no other member");
    assert!(rt; taken && more == Some(true) && are_used_again(other, 64));
}

#[test]
fn a_large_page_is_not_pooled(rt: HostRuntime) {
    let mut member = PoolMember::new(rt.alloc()).expect(&rt, "no pool");
    let large = given(&rt, &mut member, PageSize::LARGE, &[1, 2, 3, 4]);
    assert!(rt; large == Some(true) && member.get().is_none());
}

/// Gets a page, if there is one, and gives it back: whether it is not given back.
fn keeps(member: &mut PoolMember) -> bool {
    let Some(mut page) = member.get() else {
        return false;
    };
    page.write(&[1, 2, 3, 4]);
    match page.seal() {
        Ok(page) => member.give(page).is_err(),
        Err(_) => true,
    }
}

/// Gets a page and gives it back, `rounds` times: how many it got and didn't give back.
fn get_and_give(mut member: PoolMember, rounds: u32) -> u64 {
    let mut kept = 0u64;
    for _ in 0..rounds {
        kept = kept.wrapping_add(u64::from(keeps(&mut member)));
    }
    kept
}

/// Two threads that may not wait get and give, 10,000 times each: how many pages both kept.
fn both<R: Threads>(rt: &R, first: PoolMember, second: PoolMember) -> u64 {
    let (first, second) = thread::join(
        rt,
        move || get_and_give(first, 10_000),
        move || get_and_give(second, 10_000),
    );
    first.wrapping_add(second)
}

#[test]
fn two_threads_share_a_pool(rt: HostRuntime) {
    let mut member = PoolMember::new(rt.alloc()).expect(&rt, "no pool");
    let taken = takes(&rt, &mut member, 3);
    let first = member.another().expect(&rt, "no other member");
    let second = member.another().expect(&rt, "no third member");
    let kept = both(&rt, first, second);
    assert!(rt; taken && kept.wrapping_add(pooled(&mut member)) == 3);
}
