//! Buffers of bytes.
ghost use Rattle.std.specs.Prelude.{◌≡◌, ◌≤◌, ◌++◌, IfOk, OnOk, length};
ghost use Rattle.rs01_lists.specs.Bytes.{padded, zeros};

use std::alloc::{AllocError, Global};

/// A buffer of so many zeros.
pub fn zeroed(alloc: Global, len: usize) -> Result<Vec<u8>, AllocError>
    ensures zeros { IfOk result (λ buffer. buffer.items ≡ zeros len) }
    ensures len { IfOk result (λ buffer. length buffer.items ≡ len) }
{
    vec![in alloc; 0u8; len]
}

/// Writes bytes into the front of a buffer, and zeros behind them.
pub fn copy_padded(bytes: &[u8], into: &mut [u8])
    requires { length bytes.now ≤ length into.old }
    ensures { into.new ≡ padded (length into.old) bytes.now }
{
    let (front, rest) = into.split_at_mut(bytes.len());
    front.copy_from_slice(bytes);
    rest.fill(0);
}

/// Puts so many zeros behind what is there.
pub fn push_zeros(count: usize, out: &mut Vec<u8>) -> Result<(), AllocError>
    ensures { OnOk result (out.new.items ≡ out.old.items ++ zeros count) }
{
    let Some(len) = out.len().checked_add(count) else {
        return Err(AllocError);
    };
    out.resize(len, 0)?;
    Ok(())
}

/// Puts bytes behind what is there, and zeros up to a width.
pub fn push_padded(bytes: &[u8], width: usize, out: &mut Vec<u8>) -> Result<(), AllocError>
    requires { length bytes.now ≤ width }
    ensures { OnOk result (out.new.items ≡ out.old.items ++ padded width bytes.now) }
{
    out.extend_from_slice(bytes)?;
    push_zeros(width - bytes.len(), out)?;
    Ok(())
}
