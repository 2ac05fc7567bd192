ghost use Rattle.std.specs.Prelude.{OnOk};
ghost use Rattle.std.specs.Str.{IsUtf8};
ghost use Rattle.serde_json.specs.Data.{boolean, string};
ghost use Rattle.cq_reply.specs.Added.{AddsValue, AddsMember};
ghost use Rattle.cq_reply.specs.Written.{count};

use json::Writer;
use std::alloc::AllocError;
use std::str;

/// A number.
pub(crate) fn write_count(out: &mut Writer, number: u64) -> Result<(), AllocError>
    ensures { OnOk result (AddsValue (count number) out.old out.new) }
{
    out.u64(number)
}

/// A member of an object that is a number.
pub fn write_number(out: &mut Writer, name: &str, number: u64) -> Result<(), AllocError>
    ensures { OnOk result (AddsMember name.now (count number) out.old out.new) }
{
    out.key(name)?;
    write_count(out, number)
}

/// One that is a string.
pub(crate) fn write_string(out: &mut Writer, name: &str, text: &str) -> Result<(), AllocError>
    ensures { OnOk result (AddsMember name.now (string text.now) out.old out.new) }
{
    out.key(name)?;
    out.string(text)
}

/// One that is a string, by its bytes.
pub(crate) fn write_text(out: &mut Writer, name: &str, text: &[u8]) -> Result<(), AllocError>
    requires { IsUtf8 text.now }
    ensures { OnOk result (AddsMember name.now (string text.now) out.old out.new) }
{
    write_string(out, name, str::from_utf8(text).unwrap())
}

/// One that says whether something is so.
pub fn write_flag(out: &mut Writer, name: &str, flag: bool) -> Result<(), AllocError>
    ensures { OnOk result (AddsMember name.now (boolean flag) out.old out.new) }
{
    out.key(name)?;
    out.boolean(flag)
}
