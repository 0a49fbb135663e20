//! Plays a script.

ghost use Rattle.std.specs.Prelude.{◌≡◌, ◌^◌, ◌<◌, ◌≤◌, ℕ, List, [], length, IfOk, IfSome, IsErrOf, OnOk};
ghost use Rattle.std.specs.Io.KnownBytes.{Appends};
ghost use Rattle.gm_notes.specs.Settings.{Settings};
ghost use Rattle.gm_feeder.specs.declared.units.Limits.{Limits as Limited};
ghost use Rattle.gm_front.specs.Inputs.{Reading};
ghost use Rattle.gm_play.specs.Prints.{IsTextOf, Prints};
ghost use Rattle.gm_play.specs.Scripts.{lines_of, order_of};
ghost use Rattle.gm_play.specs.Players.{IsReady, Writes};

use crate::error::PlayError;
use crate::line::play_line;
use crate::order::cut;
use gm_core::Core;
use gm_feeder::Limits;
use gm_front::Front;
use gm_notes::{Config, JobServer};
use gm_plain::PlainServer;
use std::alloc::Global;
use std::hash::RandomState;
use std::io::{ErrorKind, Read, Write};

/// The most bytes that a script may have.
const MOST: usize = 16_777_216;

/// The settings of the server that a script is played on.
#[derive(Drop)]
pub struct PlaySettings {
    /// The server's settings.
    pub config: Config,
    /// How large a unit may be.
    pub limits: Limits,
    /// Whether the plain server is used, in place of the one on tables.
    pub plain: bool,
}

/// Reads the script, which is all that the reader has left.
fn read_script<R: Read>(alloc: Global, reader: &mut R) -> Result<Vec<u8>, PlayError>
    ensures all { IfOk result (λ script. IfSome (R.remaining reader.old) (λ bytes. script.items ≡ bytes)) }
    ensures most { IfOk result (λ script. length script.items ≤ 16777216) }
    ensures long { IsErrOf result PlayError.TooLong → IfSome (R.remaining reader.old) (λ bytes. 16777216 < length bytes) }
{
    let mut script = Vec::new(alloc);
    let mut bounded = (&mut *reader).take(MOST as u64 + 1);
    match bounded.read_to_end(&mut script) {
        Ok(_) => {}
        Err(fault) if fault.kind() == ErrorKind::OutOfMemory => return Err(PlayError::Memory),
        Err(_) => return Err(PlayError::Read),
    }
    if script.len() > MOST {
        return Err(PlayError::TooLong);
    }
    Ok(script)
}

/// Plays a line, and writes what it prints.
fn play_and_write<S: JobServer, W: Write>(
    alloc: Global,
    front: &mut Front<S>,
    told: &mut [bool],
    line: &[u8],
    writer: &mut W,
) -> Result<(), PlayError>
    requires { length told.old < 2 ^ 32 }
    ensures ok { OnOk result ((k : Settings) (limits : Limited) (reading : Reading) → IsReady S.agrees k limits reading front.old told.old
        → Writes S.agrees k limits reading (order_of line.now) (W.contents writer.old) front.new told.new (W.contents writer.new)) }
    ensures short { IsErrOf result PlayError.TooLong → ⊥ }
{
    let mut text = Vec::new(alloc);
    play_line(alloc, front, told, line, &mut text)?;
    match writer.write_all(&text) {
        Ok(()) => Ok(()),
        Err(_) => Err(PlayError::Write),
    }
}

/// Plays each line of a script in turn.
fn play_lines<S: JobServer, W: Write>(
    alloc: Global,
    front: &mut Front<S>,
    told: &mut [bool],
    script: &[u8],
    writer: &mut W,
) -> Result<(), PlayError>
    requires { length told.old < 2 ^ 32 }
    ensures ok { OnOk result ((k : Settings) (limits : Limited) (reading : Reading) → IsReady S.agrees k limits reading front.old told.old
        → (text : List ℕ) × Prints k limits reading (lines_of script.now) text × Appends (W.contents writer.old) (W.contents writer.new) text) }
    ensures short { IsErrOf result PlayError.TooLong → ⊥ }
{
    let mut rest = script;
    while let Some((line, after)) = cut(rest, b'\n') {
        play_and_write(alloc, front, told, line, writer)?;
        rest = after;
    }
    play_and_write(alloc, front, told, rest, writer)
}

/// Plays the script that a reader gives on a server with this many slots, and writes the results.
///
/// The server is to have taken no step yet. The contract doesn't say how much was written before an error.
pub fn play_on<S: JobServer + Drop, R: Read, W: Write>(
    alloc: Global,
    server: S,
    limits: Limits,
    slots: u32,
    reader: &mut R,
    writer: &mut W,
) -> Result<(), PlayError>
    ensures text { OnOk result ((k : Settings) → k.slots ≡ slots → k.slots ≤ 1024 → S.agrees server k []
        → IfSome (R.remaining reader.old) (λ script. (text : List ℕ) × IsTextOf k limits script text
        × Appends (W.contents writer.old) (W.contents writer.new) text)) }
    ensures short { OnOk result (IfSome (R.remaining reader.old) (λ script. length script ≤ 16777216)) }
    ensures long { IsErrOf result PlayError.TooLong → IfSome (R.remaining reader.old) (λ script. 16777216 < length script) }
{
    let script = read_script(alloc, reader)?;
    let mut front = Front::new(alloc, server, limits)?;
    let mut told = vec![in alloc; false; slots as usize]?;
    play_lines(alloc, &mut front, &mut told, &script, writer)
}

/// Plays the script that a reader gives, and writes the outcome.
///
/// The contract doesn't say how much was written before an error.
pub fn play<R: Read, W: Write>(
    alloc: Global,
    seed: RandomState,
    settings: PlaySettings,
    reader: &mut R,
    writer: &mut W,
) -> Result<(), PlayError>
    ensures text { OnOk result (IfSome (R.remaining reader.old) (λ script. (text : List ℕ)
        × IsTextOf settings.config settings.limits script text
        × Appends (W.contents writer.old) (W.contents writer.new) text)) }
    ensures short { OnOk result (IfSome (R.remaining reader.old) (λ script. length script ≤ 16777216)) }
    ensures long { IsErrOf result PlayError.TooLong → IfSome (R.remaining reader.old) (λ script. 16777216 < length script) }
{
    let PlaySettings {
        config,
        limits,
        plain,
    } = settings;
    let slots = config.slots();
    if plain {
        let server = PlainServer::new(alloc, config)?;
        return play_on(alloc, server, limits, slots, reader, writer);
    }
    let server = Core::new(alloc, seed, config)?;
    play_on(alloc, server, limits, slots, reader, writer)
}
