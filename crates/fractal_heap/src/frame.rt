//! What frames a heap's header: its signature and version, and its checksum.
ghost use Rattle.std.specs.Prelude.{◌≡◌, ◌+◌, ◌≤◌, length, OnOk, IfOk};
ghost use Rattle.fractal_heap.specs.Frame.{start_checked, sum_checked};

use checksum::jenkins_lookup3;
use fields::ensure_len;
use fields::little_endian::read_u32_le;
use fields::signature::has_signature;
use refusals::FormatError;

/// Tests signature FRHP (else 4) and version 0 (else 5) at `at`, and tells where the first field begins.
#[inline(always)]
pub fn check_start(file: &[u8], at: usize) -> Result<usize, FormatError>
    ensures tested { result ≡ start_checked file.now at }
    ensures first { IfOk result (λ pos. pos ≡ at + 5) }
    ensures there { IfOk result (λ pos. pos ≤ length file.now) }
{
    ensure_len(file, at, 5)?;
    if !has_signature(file, at, b"FRHP") {
        return Err(FormatError::InvalidFractalHeapSignature);
    }
    let version = file[at + 4];
    if version != 0 {
        return Err(FormatError::InvalidFractalHeapVersion(version));
    }
    Ok(at + 5)
}

/// Tests that the checksum at `pos` is that of the bytes from `at`, where the header begins, up to it.
#[inline(always)]
pub fn check_sum(file: &[u8], at: usize, pos: usize) -> Result<(), FormatError>
    requires { at ≤ pos }
    ensures tested { result ≡ sum_checked file.now at pos }
    ensures there { OnOk result (pos + 4 ≤ length file.now) }
{
    ensure_len(file, pos, 4)?;
    let stored = read_u32_le(file, pos);
    let computed = jenkins_lookup3(&file[at..pos]);
    if computed != stored {
        return Err(FormatError::ChecksumMismatch { stored, computed });
    }
    Ok(())
}
