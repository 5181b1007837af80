// Block moves on byte slices of any lengths.
#![tactic(auto)]

ghost use Rattle.std.specs.Prelude.{◌≡◌, ◌≤◌, length, take};
ghost use Rattle.memory.specs.Bytes.{zeros, overwrite};

// The longest move in one piece.
const BLOCK: usize = 4096;

// The first n bytes of dst become those of src, by way of an array. No slice overlaps that, so the compiler sees a block move from
// src to dst, with no test that the two are apart, and leaves the array out.
fn copy_block(dst: &mut [u8], src: &[u8], n: usize)
    requires { (n ≤ 4096) × (n ≤ length dst.old) × (n ≤ length src.now) }
    ensures { dst.new ≡ overwrite dst.old 0 (take n src.now) }
{
    let mut block = [0u8; BLOCK];
    block[..n].copy_from_slice(&src[..n]);
    dst[..n].copy_from_slice(&block[..n]);
}

// The front of dst becomes the bytes of src, as far as both go. The last step is shorter
// than a block, so the loop counts.
pub fn copy(dst: &mut [u8], src: &[u8])
    ensures { dst.new ≡ overwrite dst.old 0 src.now }
{
    let n = dst.len().min(src.len());
    let mut i = 0;
    while i < n {
        let step = BLOCK.min(n - i);
        copy_block(&mut dst[i..], &src[i..], step);
        i += step;
    }
}

// The front of dst becomes the first N bytes of src, as far as both go. Where both have as many, that is a move of a known length.
pub fn copy_array<const N: usize>(dst: &mut [u8], src: &[u8])
    ensures { dst.new ≡ overwrite dst.old 0 (take N src.now) }
{
    if N <= dst.len() && N <= src.len() {
        // Both are there.
        if let Some(front) = dst.first_chunk_mut::<N>() {
            if let Some(bytes) = src.first_chunk::<N>() {
                *front = *bytes;
            }
        }
    } else {
        copy(dst, &src[..N.min(src.len())]);
    }
}

// All of dst becomes 0.
pub fn clear(dst: &mut [u8])
    ensures { dst.new ≡ zeros (length dst.old) }
{
    dst.fill(0);
}

// The front of dst becomes the bytes of src, as far as both go, and the rest of it 0.
pub fn copy_padded(dst: &mut [u8], src: &[u8])
    ensures { dst.new ≡ overwrite (zeros (length dst.old)) 0 src.now }
{
    let copied = src.len().min(dst.len());
    copy(dst, src);
    clear(&mut dst[copied..]);
}
