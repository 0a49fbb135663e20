//! Which table the parts of an opened book are for.

ghost use Rattle.std.specs.Prelude.{[], Bool, false};
ghost use Rattle.atomic_table.specs.Seated.{TableId};
ghost use Rattle.gm_notes.specs.Settings.{Settings};

use std::marker::Brand;

/// Names the history, the table of sleep words and the list of sockets to which a book, its desks, its pens and its
/// connections belong, so that none of them is used with another book's; and says under which settings the book serves,
/// and whether it keeps a tape. It has no calls and costs nothing: a caller that makes a `Blank` hands it to a function
/// that is generic in its name, and calls that with `Brand`.
pub trait BookName {
    ghost history: { TableId };

    ghost table: { TableId };

    ghost sockets: { TableId };

    ghost settings: { Settings };

    ghost taped: { Bool };
}

impl BookName for Brand {
    ghost history = { record { words = 0; slots = 0; views_name = 0; atom = 0; block = 0; offset = 0; slot_names = [] } };

    ghost table = { record { words = 0; slots = 0; views_name = 0; atom = 0; block = 0; offset = 0; slot_names = [] } };

    ghost sockets = { record { words = 0; slots = 0; views_name = 0; atom = 0; block = 0; offset = 0; slot_names = [] } };

    ghost settings = { record { name = []; first_job = 0; slots = 0; max_functions = 0; round_robin = false; retries = 0; as_gearmand = false } };

    ghost taped = { false };
}
