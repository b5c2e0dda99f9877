//! The head of a served run.

ghost use Rattle.std.specs.Prelude.{◌≡◌, ℕ, List, ◌≤◌, ◌++◌, [], length, Ok, IfOk, IfErr, IfSome, OnOk, IsErrOf};
ghost use Rattle.fault_script.specs.Script.{IsRead};
ghost use Rattle.cs_base.specs.Faults.{HasRisen};
ghost use Rattle.script_program.specs.Endings.{IsRefused};
ghost use Rattle.script_program.specs.Requests.{setting_of as setting_of_script};
ghost use Rattle.source_lines.specs.Heads.{head_of};
ghost use Rattle.cluster_program.specs.Heads.{IsHead, listening_line, listening_lines};
ghost use Rattle.cluster_program.specs.Reading.{GivesHeadOf, of_reading};

use chronicle_print::push_number;
use cs_io::Source;
use fault_script::{LONGEST_SCRIPT, Script, parse, scripts_have_an_expiry};
use peer_messages::Setting;
use script_program::{Refusal, setting_of};
use source_lines::{LineReader, ReadError};
use std::alloc::{AllocError, Global};

/// What a served run has to know before it begins: the script's head, what all nodes know, the lines that come, and what the console
/// writes first.
#[derive(Drop)]
pub(crate) struct Head {
    pub script: Script,
    pub setting: Setting,
    pub lines: LineReader,
    pub opening: Vec<u8>,
}

fn refusal_of(error: ReadError) -> Refusal
    ensures same { result ≡ of_reading error }
    ensures refused { (left : List ℕ) → IsRefused left result }
{
    match error {
        ReadError::Failed => Refusal::ReadFault,
        ReadError::NoMemory => Refusal::NoMemory,
    }
}

/// The bytes of the head.
fn head_text<S: Source>(
    alloc: Global,
    lines: &mut LineReader,
    source: &mut S,
) -> Result<Vec<u8>, Refusal>
    requires { lines.old.ahead ≡ [] }
    ensures text { IfOk result (λ text. IfSome (S.remaining source.old) (λ left. GivesHeadOf left text.items lines.new (S.remaining source.new))) }
    ensures refused { IfErr result (λ r. IfSome (S.remaining source.old) (λ left. IsRefused (head_of left) r)) }
    ensures counted { S.faults source.old ≤ S.faults source.new }
    ensures failed { IsErrOf result Refusal.ReadFault → HasRisen (S.faults source.old) (S.faults source.new) }
{
    match lines.read_head(alloc, source, LONGEST_SCRIPT) {
        Ok(text) => Ok(text),
        Err(error) => Err(refusal_of(error)),
    }
}

/// The script of these bytes.
fn script_of(alloc: Global, text: &[u8]) -> Result<Script, Refusal>
    ensures script { IfOk result (λ script. IsRead text.now (Ok script)) }
    ensures expiry { IfOk result (λ script. script.expiry ≤ 100000) }
    ensures refused { IfErr result (IsRefused text.now) }
    ensures unfailed { IsErrOf result Refusal.ReadFault → ⊥ }
{
    scripts_have_an_expiry();
    Ok(parse(alloc, text)?)
}

/// The script of the head.
fn head_script<S: Source>(
    alloc: Global,
    lines: &mut LineReader,
    source: &mut S,
) -> Result<Script, Refusal>
    requires { lines.old.ahead ≡ [] }
    ensures script { IfOk result (λ script. IfSome (S.remaining source.old) (λ left. IsHead left script lines.new (S.remaining source.new))) }
    ensures expiry { IfOk result (λ script. script.expiry ≤ 100000) }
    ensures refused { IfErr result (λ r. IfSome (S.remaining source.old) (λ left. IsRefused (head_of left) r)) }
    ensures counted { S.faults source.old ≤ S.faults source.new }
    ensures failed { IsErrOf result Refusal.ReadFault → HasRisen (S.faults source.old) (S.faults source.new) }
{
    match head_text(alloc, lines, source) {
        Ok(text) => script_of(alloc, &text),
        Err(refusal) => Err(refusal),
    }
}

/// Puts the line that tells at which port the node listens behind what is there.
fn push_listening(text: &mut Vec<u8>, node: u64, port: u64) -> Result<(), AllocError>
    ensures { OnOk result (text.new.items ≡ text.old.items ++ listening_line node port) }
{
    text.extend_from_slice(b"listening ")?;
    push_number(text, node)?;
    text.push(b' ')?;
    push_number(text, port)?;
    text.push(b'\n')?;
    Ok(())
}

/// The lines that tell at which port each node listens.
fn opening_lines(alloc: Global, port: u16, nodes: u8) -> Result<Vec<u8>, AllocError>
    ensures { IfOk result (λ text. text.items ≡ listening_lines port nodes) }
{
    let mut text = Vec::new(alloc);
    for node in 0..nodes {
        let number = u64::from(node);
        push_listening(&mut text, number, u64::from(port) + number)?;
    }
    Ok(text)
}

/// Reads the head of a run whose nodes listen at this port and those behind it.
pub(crate) fn read_head<S: Source>(
    alloc: Global,
    source: &mut S,
    port: u16,
) -> Result<Head, Refusal>
    ensures script { IfOk result (λ head. IfSome (S.remaining source.old) (λ left. IsHead left head.script head.lines (S.remaining source.new))) }
    ensures setting { IfOk result (λ head. head.setting ≡ setting_of_script head.script) }
    ensures opening { IfOk result (λ head. head.opening.items ≡ listening_lines port (length head.script.ring)) }
    ensures refused { IfErr result (λ r. IfSome (S.remaining source.old) (λ left. IsRefused (head_of left) r)) }
    ensures counted { S.faults source.old ≤ S.faults source.new }
    ensures failed { IsErrOf result Refusal.ReadFault → HasRisen (S.faults source.old) (S.faults source.new) }
{
    let mut lines = LineReader::new(alloc)?;
    let script = head_script(alloc, &mut lines, source)?;
    let setting = setting_of(alloc, &script)?;
    let opening = opening_lines(alloc, port, script.ring.nodes())?;
    Ok(Head {
        script,
        setting,
        lines,
        opening,
    })
}
