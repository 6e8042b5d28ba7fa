//! The texts that the tool puts.

ghost use Rattle.std.specs.Prelude.{◌≡◌, string_bytes, IfOk};
ghost use Rattle.rz_core.specs.Texts.{check_text, generated_text, labelled_text, traced_text, verdict_text, counted_text, compared_text};
ghost use Rattle.rz_core.specs.Statuses.{refusal_text as text_of_refusal};
ghost use Rattle.rz_core.specs.Calls.Said.{text_said};

use crate::status::{Said, Status, row_of};
use rz_replay::compare::Verdict;
use std::alloc::{AllocError, Global};

/// What is said of an accepted file.
pub fn check(alloc: Global, loads: u64, entry: u64, first_break: u64) -> Result<String, AllocError>
    ensures { IfOk result (λ s. string_bytes s ≡ check_text loads entry first_break) }
{
    format!(in alloc; "ok loads {loads} entry 0x{entry:x} break 0x{first_break:x}\n")
}

/// What is said of a generated file of so many bytes.
pub fn generated(alloc: Global, len: u64) -> Result<String, AllocError>
    ensures { IfOk result (λ s. string_bytes s ≡ generated_text len) }
{
    format!(in alloc; "generated {len}\n")
}

/// What is said of a labelled file of so many bytes.
pub fn labelled(alloc: Global, len: u64) -> Result<String, AllocError>
    ensures { IfOk result (λ s. string_bytes s ≡ labelled_text len) }
{
    format!(in alloc; "labelled {len}\n")
}

/// What is said of a trace of so many nodes and edges.
pub fn traced(alloc: Global, nodes: u64, edges: u64) -> Result<String, AllocError>
    ensures { IfOk result (λ s. string_bytes s ≡ traced_text nodes edges) }
{
    format!(in alloc; "traced {nodes} {edges}\n")
}

/// What is said of a verdict.
pub fn verdict(alloc: Global, verdict: Verdict) -> Result<String, AllocError>
    ensures { IfOk result (λ s. string_bytes s ≡ verdict_text verdict) }
{
    match verdict {
        Verdict::Same(events) => format!(in alloc; "same {events}\n"),
        Verdict::Differ(event) => format!(in alloc; "differ {event}\n"),
        Verdict::Stub(source) => format!(in alloc; "stub 0x{source:x}\n"),
    }
}

/// What is said of a generated program of so many functions, which makes so many steps.
pub fn counted(alloc: Global, functions: u32, steps: u64) -> Result<String, AllocError>
    ensures { IfOk result (λ s. string_bytes s ≡ counted_text functions steps) }
{
    format!(in alloc; "functions {functions}\nsteps {steps}\n")
}

/// What is said of a new file beside its old one.
pub fn compared(alloc: Global, verdict: Verdict) -> Result<String, AllocError>
    ensures { IfOk result (λ s. string_bytes s ≡ compared_text verdict) }
{
    match verdict {
        Verdict::Same(_) => format!(in alloc; "replay same\n"),
        Verdict::Differ(_) => format!(in alloc; "replay differ\n"),
        Verdict::Stub(_) => format!(in alloc; "replay stub\n"),
    }
}

// What is said.
fn say(alloc: Global, said: Said) -> Result<String, AllocError>
    ensures { IfOk result (λ s. string_bytes s ≡ text_said said.entry) }
{
    match said {
        Said::Nothing => format!(in alloc; ""),
        Said::Words(words) => format!(in alloc; "{words}\n"),
        Said::Name(words, name) => {
            let name = name.as_slice();
            format!(in alloc; "{words} {name}\n")
        }
        Said::Number(words, n) => format!(in alloc; "{words} {n}\n"),
        Said::Address(words, address) => format!(in alloc; "{words} 0x{address:x}\n"),
        Said::Numbers(words, n, m) => format!(in alloc; "{words} {n} {m}\n"),
        Said::Place(words, n, address) => format!(in alloc; "{words} {n} 0x{address:x}\n"),
        Said::Fault(words, name, fault) => {
            let name = name.as_slice();
            format!(in alloc; "{words} {name} {fault}\n")
        }
        Said::Room(words, room) => format!(in alloc; "{words} {room}\n"),
        Said::Symbols(words, fault) => format!(in alloc; "{words} {fault}\n"),
    }
}

/// The text of a refusal; empty for the answers that have none.
pub fn refusal(alloc: Global, status: &Status) -> Result<String, AllocError>
    ensures { IfOk result (λ s. string_bytes s ≡ text_of_refusal status.now) }
{
    say(alloc, row_of(status).text)
}
