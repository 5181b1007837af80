// The media part: the bytes of eight files and their stored sizes, both borrowed.
//
// It knows three writes, PAGE, SIZE and TRIM, and nothing of cached pages. A write that is done counts 0. A refusal changes
// nothing.
#![tactic(auto)]

ghost use Rattle.std.specs.Prelude.{◌≡◌, ◌+◌, ◌-◌, ◌^◌, ◌≤◌, ◌<◌, length, OnOk};
ghost use Rattle.answer.specs.Coded.{coded, coded_test};
ghost use Rattle.memory.specs.Bytes.{zeros, overwrite};
ghost use Rattle.media.specs.Geometry.{files, pages_per_file, file_bytes, media_bytes, file_start};
ghost use Rattle.media.specs.Moments.{media_at_entry, media_at_exit};
ghost use Rattle.media.specs.Direct.{page_answer, page_after, size_answer, size_after, Admitted, trim_answer, trim_after};

use answer::Refusal;

// The media is FILES * PAGES_PER_FILE * PAGE_BYTES bytes, one file after the other, and FILES sizes.
pub const FILES: usize = 8;

pub const PAGES_PER_FILE: usize = 16;

pub const PAGE_BYTES: usize = 256;

// The number of pages in a file. The greatest file size fits a stored size.
#[derive(Clone, Copy)]
struct Pages {
    count: usize,
    ghost fits: { file_bytes count < 2 ^ 32 },
}

impl Pages {
    fn file_len(self) -> usize
        ensures { result ≡ file_bytes self.count }
    {
        PAGE_BYTES * self.count
    }
}

const FILE_PAGES: Pages = Pages {
    count: PAGES_PER_FILE,
};

// PAGE: the bytes of one page are replaced. It borrows the one page of the media that it may write.
pub fn write_page(page: &mut [u8], bytes: &[u8]) -> Result<usize, Refusal>
    ensures { (coded result ≡ page_answer page.old bytes.now)
        × (page.new ≡ page_after page.old bytes.now) }
{
    if page.len() != PAGE_BYTES || bytes.len() != PAGE_BYTES {
        return Err(Refusal::Shape);
    }
    memory::copy(page, bytes);
    Ok(0)
}

// SIZE: the stored size of one file becomes n. Of the media's bytes only the length is used.
pub fn write_size(media: &[u8], sizes: &mut [u32], file: usize, n: usize) -> Result<usize, Refusal>
    ensures { (coded result ≡ size_answer pages_per_file (media_at_entry media.now sizes.old) file n)
        × (media_at_exit media.now sizes.new ≡ size_after pages_per_file (media_at_entry media.now sizes.old) file n) }
{
    write_size_in(media, sizes, file, n, FILE_PAGES)
}

// TRIM: the bytes of one file from n on become 0, and its stored size becomes n.
pub fn trim(media: &mut [u8], sizes: &mut [u32], file: usize, n: usize) -> Result<usize, Refusal>
    ensures { (coded result ≡ trim_answer pages_per_file (media_at_entry media.old sizes.old) file n)
        × (media_at_exit media.new sizes.new ≡ trim_after pages_per_file (media_at_entry media.old sizes.old) file n) }
{
    trim_in(media, sizes, file, n, FILE_PAGES)
}

// SIZE and TRIM over the number of pages in a file.
fn write_size_in(
    media: &[u8],
    sizes: &mut [u32],
    file: usize,
    n: usize,
    pages: Pages,
) -> Result<usize, Refusal>
    ensures { (coded result ≡ size_answer pages.count (media_at_entry media.now sizes.old) file n)
        × (media_at_exit media.now sizes.new ≡ size_after pages.count (media_at_entry media.now sizes.old) file n) }
{
    admit(media, sizes, file, n, pages)?;
    sizes[file] = n as u32;
    Ok(0)
}

fn trim_in(
    media: &mut [u8],
    sizes: &mut [u32],
    file: usize,
    n: usize,
    pages: Pages,
) -> Result<usize, Refusal>
    ensures { (coded result ≡ trim_answer pages.count (media_at_entry media.old sizes.old) file n)
        × (media_at_exit media.new sizes.new ≡ trim_after pages.count (media_at_entry media.old sizes.old) file n) }
{
    admit(media, sizes, file, n, pages)?;
    let size = n as u32;
    if sizes[file] < size {
        return Err(Refusal::Range);
    }
    clear_from(media, file, n, pages);
    sizes[file] = size;
    Ok(0)
}

// The bytes of one file from n on become 0. The media is a slice: its length goes by the number of pages.
fn clear_from(media: &mut [u8], file: usize, n: usize, pages: Pages)
    requires { (length media.old ≡ media_bytes pages.count) × (file < files) × (n ≤ file_bytes pages.count) }
    ensures { media.new ≡ overwrite media.old (file_start pages.count file + n) (zeros (file_bytes pages.count - n)) }
{
    let file_len = pages.file_len();
    let start = file * file_len;
    media[start + n..start + file_len].fill(0);
}

// The refusals of SIZE, which TRIM shares, in their order.
fn admit(media: &[u8], sizes: &[u32], file: usize, n: usize, pages: Pages) -> Result<(), Refusal>
    ensures answer { coded_test result ≡ size_answer pages.count (media_at_entry media.now sizes.now) file n }
    ensures tested { OnOk result (Admitted pages.count (media_at_entry media.now sizes.now) file n) }
{
    if media.len() != FILES * pages.file_len() || sizes.len() != FILES {
        return Err(Refusal::Shape);
    }
    if FILES <= file {
        return Err(Refusal::NoFile);
    }
    if pages.file_len() < n {
        return Err(Refusal::Range);
    }
    Ok(())
}
