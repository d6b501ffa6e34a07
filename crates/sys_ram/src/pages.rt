// Reads and writes of the pages of memory.
ghost use Rattle.std.specs.Prelude.{◌≡◌, ℕ, ◌+◌, ◌*◌, ◌<◌, ◌≤◌, ◌^◌, true, length, OnOk, OnErr, is_some, Some};
ghost use Rattle.cos_base.specs.Octets.{overwritten};
ghost use Rattle.sys_ram.specs.Memory.{part_of};
ghost use Rattle.sys_ram.specs.Pages.{zero_page, page_bytes, memory_of, IsPage, ArePages, page_at, AreThere, written_from};

use crate::page::Page;
use cos_base::NoMemory;
use std::alloc::Global;

/// The bytes of a page from a place on.
#[tactic(auto, using(crate::proofs::Paging::zero_part))]
#[inline(always)]
fn copy_page(page: &Option<Page>, at: usize, out: &mut [u8])
    requires { at + length out.old ≤ 4096 }
    ensures { out.new ≡ part_of (page_bytes page.now) at (length out.old) }
{
    match page {
        Some(page) => page.copy_out(at, out),
        None => out.fill(0),
    }
}

/// The bytes of a page, or those zeros where it isn't there.
pub(crate) fn page_or<'a>(page: &'a Option<Page>, zeros: &'a [u8]) -> &'a [u8]
    requires { zeros.now ≡ zero_page }
    ensures { result.now ≡ page_bytes page.now }
{
    match page {
        Some(page) => page.as_slice(),
        None => zeros,
    }
}

/// The bytes of memory from a place on.
pub(crate) fn copy_out(pages: &[Option<Page>], at: usize, out: &mut [u8])
    requires pages { ArePages pages.now }
    requires within { at + length out.old ≤ length (memory_of pages.now) }
    requires few { length pages.now ≤ 16384 }
    ensures { out.new ≡ part_of (memory_of pages.now) at (length out.old) }
{
    let mut done = 0;
    'parts: while done < out.len() {
        let from = at + done;
        let within = from % 4096;
        let count = (4096 - within).min(out.len() - done);
        copy_page(&pages[from / 4096], within, &mut out[done..done + count]);
        done += count;
    }
}

/// A few bytes of memory from a place on, mostly of one page.
#[inline(always)]
pub(crate) fn part<const N: usize>(pages: &[Option<Page>], at: usize) -> [u8; N]
    requires pages { ArePages pages.now }
    requires within { at + N ≤ length (memory_of pages.now) }
    requires some { 0 < N }
    requires least { N ≤ 4096 }
    requires few { length pages.now ≤ 16384 }
    ensures { result ≡ part_of (memory_of pages.now) at N }
{
    let mut bytes = [0; N];
    if at % 4096 <= 4096 - N {
        copy_page(&pages[at / 4096], at % 4096, &mut bytes);
    } else {
        copy_out(pages, at, &mut bytes);
    }
    bytes
}

/// Makes a page where there is none.
#[inline(always)]
fn touch(alloc: Global, page: &mut Option<Page>) -> Result<(), NoMemory>
    ensures bytes { page_bytes page.new ≡ page_bytes page.old }
    ensures kept { is_some page.old ≡ true → is_some page.new ≡ true }
    ensures there { OnOk result (is_some page.new ≡ true) }
{
    if page.is_none() {
        *page = Some(Page::zeros(alloc)?);
    }
    Ok(())
}

/// Makes the pages of `count` bytes from a place on, where they aren't there.
pub(crate) fn touch_all(
    alloc: Global,
    pages: &mut [Option<Page>],
    at: usize,
    count: usize,
) -> Result<(), NoMemory>
    requires pages { ArePages pages.old }
    requires within { at + count ≤ 4096 * length pages.old }
    requires few { length pages.old ≤ 16384 }
    ensures bytes { memory_of pages.new ≡ memory_of pages.old }
    ensures pages { ArePages pages.new }
    ensures there { OnOk result (AreThere pages.new at count) }
{
    let mut index = at / 4096;
    'pages: while 4096 * index < at + count {
        touch(alloc, &mut pages[index])?;
        index += 1;
    }
    Ok(())
}

/// Writes the enabled ones of some bytes to a page.
fn write_page(page: &mut Option<Page>, at: usize, bytes: &[u8], enables: &[u8], first: usize)
    requires there { is_some page.old ≡ true }
    requires within { at + length bytes.now ≤ 4096 }
    requires small { first + length bytes.now < 2 ^ 64 }
    ensures bytes { page_bytes page.new ≡ written_from (page_bytes page.old) at bytes.now enables.now first }
    ensures there { is_some page.new ≡ true }
{
    match page {
        Some(page) => page.write(at, bytes, enables, first),
        None => unreachable!(),
    }
}

/// Writes the enabled ones of some bytes to pages that are there.
pub(crate) fn write_all(pages: &mut [Option<Page>], at: usize, bytes: &[u8], enables: &[u8])
    requires pages { ArePages pages.old }
    requires within { at + length bytes.now ≤ length (memory_of pages.old) }
    requires few { length pages.old ≤ 16384 }
    requires there { AreThere pages.old at (length bytes.now) }
    ensures bytes { memory_of pages.new ≡ written_from (memory_of pages.old) at bytes.now enables.now 0 }
    ensures pages { ArePages pages.new }
{
    let mut done = 0;
    'parts: while done < bytes.len() {
        let from = at + done;
        let within = from % 4096;
        let count = (4096 - within).min(bytes.len() - done);
        write_page(
            &mut pages[from / 4096],
            within,
            &bytes[done..done + count],
            enables,
            done,
        );
        done += count;
    }
}

/// Replaces a few bytes of a page, which is made where it isn't there.
#[inline(always)]
fn put_in_page(
    alloc: Global,
    page: &mut Option<Page>,
    at: usize,
    bytes: &[u8],
) -> Result<(), NoMemory>
    requires { at + length bytes.now ≤ 4096 }
    ensures ok { OnOk result (page_bytes page.new ≡ overwritten (page_bytes page.old) at bytes.now) }
    ensures err { OnErr result (page_bytes page.new ≡ page_bytes page.old) }
{
    touch(alloc, page)?;
    match page {
        Some(page) => page.overwrite(at, bytes),
        None => unreachable!(),
    }
    Ok(())
}

/// Replaces a few bytes of memory from a place on, mostly of one page. It makes the pages that it needs before it writes.
#[inline(always)]
pub(crate) fn put_part<const N: usize>(
    alloc: Global,
    pages: &mut [Option<Page>],
    at: usize,
    bytes: &[u8; N],
) -> Result<(), NoMemory>
    requires pages { ArePages pages.old }
    requires within { at + N ≤ length (memory_of pages.old) }
    requires few { length pages.old ≤ 16384 }
    requires some { 0 < N }
    requires least { N ≤ 4096 }
    ensures ok { OnOk result (memory_of pages.new ≡ overwritten (memory_of pages.old) at bytes.now) }
    ensures err { OnErr result (memory_of pages.new ≡ memory_of pages.old) }
    ensures pages { ArePages pages.new }
{
    if at % 4096 <= 4096 - N {
        return match put_in_page(alloc, &mut pages[at / 4096], at % 4096, bytes) {
            Ok(()) => Ok(()),
            Err(NoMemory) => Err(NoMemory),
        };
    }
    touch_all(alloc, pages, at, N)?;
    write_all(pages, at, bytes, &[]);
    Ok(())
}
