//! The texts that answer lines.

ghost use Rattle.std.specs.Prelude.{◌≡◌, ◌+◌, ◌<◌, ◌++◌, map, length, vec_len, vec_capacity, OnOk, OnErr};
ghost use Rattle.gm_admin.specs.Answers.{status_text, workers_text, ok_text, version_text, error_text};
ghost use Rattle.gm_admin.specs.Views.{status_of, worker_of};

use crate::fault::AdminError;
use crate::lines::{StatusRow, WorkerRow};
use crate::writing::write_list;
use std::alloc::AllocError;

/// The server's version, as `version` answers it.
pub const VERSION: &str = "1.0.0";

/// Appends the answer to `status`: a line for each function, and a dot. As the other functions here do, it fails only
/// if `out` has no room for the whole answer and there is no memory for more, and then changes no byte.
#[tactic(auto, using(crate::proofs::LineTexts::line_texts))]
pub fn write_status(lines: &[StatusRow<'_>], out: &mut Vec<u8>) -> Result<(), AllocError>
    ensures ok { OnOk result (out.new.items
        ≡ out.old.items ++ status_text (map status_of lines.now)) }
    ensures err { OnErr result (out.new.items ≡ out.old.items) }
    ensures full { OnErr result (vec_capacity out.old
        < vec_len out.old + length (status_text (map status_of lines.now))) }
{
    write_list(lines, out)
}

/// Appends the answer to `workers`: a line for each connection, and a dot.
#[tactic(auto, using(crate::proofs::LineTexts::line_texts))]
pub fn write_workers(lines: &[WorkerRow<'_>], out: &mut Vec<u8>) -> Result<(), AllocError>
    ensures ok { OnOk result (out.new.items
        ≡ out.old.items ++ workers_text (map worker_of lines.now)) }
    ensures err { OnErr result (out.new.items ≡ out.old.items) }
    ensures full { OnErr result (vec_capacity out.old
        < vec_len out.old + length (workers_text (map worker_of lines.now))) }
{
    write_list(lines, out)
}

/// Appends the answer to a command that was carried out: `OK`.
pub fn write_ok(out: &mut Vec<u8>) -> Result<(), AllocError>
    ensures ok { OnOk result (out.new.items ≡ out.old.items ++ ok_text) }
    ensures err { OnErr result (out.new.items ≡ out.old.items) }
    ensures full { OnErr result (vec_capacity out.old < vec_len out.old + length ok_text) }
{
    out.extend_from_slice(b"OK\n")
}

/// Appends the answer to `version`: `OK` and `VERSION`.
pub fn write_version(out: &mut Vec<u8>) -> Result<(), AllocError>
    ensures ok { OnOk result (out.new.items ≡ out.old.items ++ version_text) }
    ensures err { OnErr result (out.new.items ≡ out.old.items) }
    ensures full { OnErr result (vec_capacity out.old < vec_len out.old + length version_text) }
{
    out.extend_from_slice(b"OK 1.0.0\n")
}

/// The line that says what is wrong.
fn error_line<'a>(error: AdminError) -> &'a [u8]
    ensures { result.now ≡ error_text error }
{
    match error {
        AdminError::UnknownCommand => b"ERR unknown_command\n",
        AdminError::MissingName => b"ERR missing_name\n",
        AdminError::BadSize => b"ERR bad_size\n",
        AdminError::BadFunction => b"ERR bad_function\n",
        AdminError::TooManyFunctions => b"ERR too_many_functions\n",
        AdminError::LineTooLong => b"ERR line_too_long\n",
    }
}

/// Appends the answer to a line that was refused.
pub fn write_fault(error: AdminError, out: &mut Vec<u8>) -> Result<(), AllocError>
    ensures ok { OnOk result (out.new.items ≡ out.old.items ++ error_text error) }
    ensures err { OnErr result (out.new.items ≡ out.old.items) }
    ensures full { OnErr result (vec_capacity out.old < vec_len out.old + length (error_text error)) }
{
    out.extend_from_slice(error_line(error))
}
