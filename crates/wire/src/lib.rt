// Little-endian numbers in a lent slice of bytes.
#![tactic(auto)]

ghost use Rattle.std.specs.Prelude.{◌≡◌, ◌+◌, ◌≤◌, length, take, drop};
ghost use Rattle.std.proofs.Math.Seq.{paste};
ghost use Rattle.wire.specs.Fields.{field, put, zeros};

// The N bytes from a place on.
fn bytes_at<const N: usize>(b: &[u8], at: usize) -> [u8; N]
    requires { at + N ≤ length b.now }
    ensures { result ≡ take N (drop at b.now) }
{
    let mut bytes = [0; N];
    bytes.copy_from_slice(&b[at..at + N]);
    bytes
}

// Writes bytes from a place on.
fn put_bytes<const N: usize>(b: &mut [u8], at: usize, bytes: [u8; N])
    requires { at + N ≤ length b.old }
    ensures { b.new ≡ paste b.old at bytes.entry N }
{
    b[at..at + N].copy_from_slice(&bytes);
}

#[tactic(auto, using(crate::proofs::Widths::read_4))]
pub fn read32(b: &[u8], at: usize) -> u32
    requires { at + 4 ≤ length b.now }
    ensures { result ≡ field 4 b.now at }
{
    u32::from_le_bytes(bytes_at::<4>(b, at))
}

#[tactic(auto, using(crate::proofs::Widths::read_8))]
pub fn read64(b: &[u8], at: usize) -> u64
    requires { at + 8 ≤ length b.now }
    ensures { result ≡ field 8 b.now at }
{
    u64::from_le_bytes(bytes_at::<8>(b, at))
}

#[tactic(auto, using(crate::proofs::Widths::write_4))]
pub fn write32(b: &mut [u8], at: usize, v: u32)
    requires { at + 4 ≤ length b.old }
    ensures { b.new ≡ put 4 b.old at v }
{
    put_bytes::<4>(b, at, v.to_le_bytes());
}

#[tactic(auto, using(crate::proofs::Widths::write_8))]
pub fn write64(b: &mut [u8], at: usize, v: u64)
    requires { at + 8 ≤ length b.old }
    ensures { b.new ≡ put 8 b.old at v }
{
    put_bytes::<8>(b, at, v.to_le_bytes());
}

// Whether every byte is zero.
pub fn all_zero(b: &[u8]) -> bool
    ensures { result ≡ zeros b.now }
{
    b.iter().all(|x| *x == 0)
}
