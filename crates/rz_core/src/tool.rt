//! The top call: a command line over a store of files and a sink of text.

ghost use Rattle.std.specs.Prelude.{◌≡◌, ◌≤◌, ◌↔◌, IsSome};
ghost use Rattle.rz_outside.specs.StoreCalls.{store_calls};
ghost use Rattle.rz_outside.specs.SinkCalls.{sink_calls};
ghost use Rattle.rz_core.specs.Causes.{HasCause, FilesAfter, SinkAfter};
ghost use Rattle.rz_core.specs.Exact.{IsExact};
ghost use Rattle.rz_core.specs.Headline.{Headline};
ghost use Rattle.rz_core.specs.Labelling.{Labelling};

use crate::driver::{refuse, run_plan};
use crate::status::Status;
use crate::words::read_plan;
use rz_num::{OutOfMemory, Text};
use rz_outside::{Sink, Store};
use std::alloc::Global;

/// Runs the tool on the command line's words, after the program's name.
pub fn run_tool<S: Store, K: Sink>(
    alloc: Global,
    words: &Vec<Text>,
    store: &mut S,
    out: &mut K,
) -> Status
    ensures telling { S.told store.new ≡ S.told store.old }
    ensures store_count { S.faults store.old ≤ S.faults store.new }
    ensures sink_telling { IsSome (K.written out.new) ↔ IsSome (K.written out.old) }
    ensures sink_count { K.faults out.old ≤ K.faults out.new }
    ensures headline { Headline words.now.items (store_calls S.Store store.old store.new) result }
    ensures labelled { Labelling words.now.items (store_calls S.Store store.old store.new) result }
    ensures cause { HasCause words.now.items
        (store_calls S.Store store.old store.new) (sink_calls K.Sink out.old out.new) result }
    ensures exact { IsExact words.now.items
        (store_calls S.Store store.old store.new) (sink_calls K.Sink out.old out.new) result }
    ensures files { FilesAfter words.now.items (store_calls S.Store store.old store.new) result }
    ensures sink { SinkAfter words.now.items
        (store_calls S.Store store.old store.new) (sink_calls K.Sink out.old out.new) result }
{
    match read_plan(alloc, words) {
        Err(OutOfMemory) => Status::OutOfMemory,
        Ok(None) => refuse(alloc, out, Status::Usage),
        Ok(Some(plan)) => run_plan(alloc, &plan, store, out),
    }
}
