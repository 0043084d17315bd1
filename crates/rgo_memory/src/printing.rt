//! How values are printed.

ghost use Rattle.std.specs.Prelude.{◌≡◌, ◌++◌, OnOk, OnErr};
ghost use Rattle.rgo_memory.specs.Shown.{shown};

use crate::values::Value;
use itoa::Buffer;
use std::alloc::AllocError;

/// Appends what `fmt.Println` writes for an integer or a truth value. Nothing for others, which the typing rules keep out of
/// prints: Go would write an address, and an object here has a number only.
///
/// # Errors
///
/// On allocation failure. Then nothing is appended.
pub fn write_value(bytes: &mut Vec<u8>, value: Value) -> Result<(), AllocError>
    ensures appends { OnOk result (bytes.new.items ≡ bytes.old.items ++ shown value) }
    ensures keeps { OnErr result (bytes.new.items ≡ bytes.old.items) }
{
    match value {
        Value::Int(n) => {
            let mut buffer = Buffer::new();
            bytes.extend_from_slice(buffer.format(n).as_bytes())
        }
        Value::Bool(true) => bytes.extend_from_slice(b"true"),
        Value::Bool(false) => bytes.extend_from_slice(b"false"),
        Value::Nil | Value::Object(_) => Ok(()),
    }
}
