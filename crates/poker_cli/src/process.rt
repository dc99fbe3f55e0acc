//! Runs the program as a process: on its words, over its streams and the files of the system.
ghost use Rattle.std.specs.Prelude.{◌≡◌, ◌≢◌, ◌⊎◌, [], drop, IfErr, IfOk};
ghost use Rattle.std.specs.Process.{exit_status};
ghost use Rattle.std.specs.IoError.{error_kind};
ghost use Rattle.std.specs.Vec.Iter.{into_iter_items};
ghost use Rattle.std.specs.declared.io.ErrorKind.TheVariants.{OutOfMemory};
ghost use Rattle.card_set.specs.Refusal.{WasRefused};
ghost use Rattle.poker_cli.specs.Process.{LacksWords, RunKeeps, words_given};
ghost use Rattle.poker_cli.specs.Ran.{HasRun, RunsOver};
ghost use Rattle.poker_cli.specs.Run.{change_of};
ghost use Rattle.poker_cli.specs.Status.{IsStatusNumber, status_number};
ghost use Rattle.poker_cli.specs.declared.status.Status.{Status as AnyStatus};

use crate::entry::{print_line, run};
use crate::status::Status;
use card_set::{Memory, TryPush};
use host_io::{FileShelf, Shelf, Sink, Source, StdSink, StdSource};
use std::alloc::Global;
use std::env::{self, Args};
use std::io::{self, Read, Write};
use std::process::ExitCode;
use std::rt::{Env, Files};

/// Runs the program as the current process, over these streams and the files of the system, and
/// returns the exit status.
pub fn run_process<R: Read + Drop, W: Write + Drop, D: Write + Drop>(
    rt: &(impl Env + Files + AllocGlobal),
    input: R,
    out: W,
    diag: D,
) -> ExitCode
    // What is returned is the number of the status of a run over these streams.
    ensures ran { RunsOver input out diag (exit_status result) }
    ensures number { IsStatusNumber (exit_status result) }
{
    let mut input = StdSource::new(input);
    let mut shelf = FileShelf::new(rt);
    let mut out = StdSink::new(out);
    let mut diag = StdSink::new(diag);
    end_with(
        rt.alloc(),
        env::args(rt),
        &mut input,
        &mut shelf,
        &mut out,
        &mut diag,
    )
}

/// Runs the program over these devices on the words behind the first of all, which is the name of
/// the process, and returns the number of the status that the run answers.
#[tactic(auto, using(crate::specs::Ran::a_run_ended))]
pub fn end_with<S: Source, H: Shelf, K: Sink, D: Sink>(
    alloc: Global,
    all: io::Result<Args>,
    input: &mut S,
    shelf: &mut H,
    out: &mut K,
    diag: &mut D,
) -> ExitCode
    // The status is that of a run on these words, with everything that `run` promises.
    ensures run { (status : AnyStatus) × ((exit_status result ≡ status_number status)
        × (LacksWords (change_of D.held D.faults diag.old diag.new) status
        input.old input.new shelf.old shelf.new out.old out.new
        ⊎ RunKeeps (words_given all) (S.left input.old) (H.files shelf.old) H.Asked
        (S.faults input.old, S.faults input.new) (H.faults shelf.old, H.faults shelf.new)
        (change_of K.held K.faults out.old out.new)
        (change_of D.held D.faults diag.old diag.new) status
        input.old input.new shelf.old shelf.new out.old out.new diag.old diag.new)) }
    // That it ran over these devices, is given by this call alone.
    ensures ran { (status : AnyStatus) × ((exit_status result ≡ status_number status)
        × HasRun input.old input.new out.old out.new diag.old diag.new status) }
    // The status is 8 only where a request for memory was refused.
    ensures memory { exit_status result ≡ 8 → WasRefused }
    // Words that are not text are no command.
    ensures no_text { IfErr all (λ error. error_kind error ≢ OutOfMemory
        → exit_status result ≡ 2) }
{
    let status = answer_to_words(alloc, all, input, shelf, out, diag);
    ExitCode::from(status.number())
}

// The status of a run on the words after the first one.
fn answer_to_words<S: Source, H: Shelf, K: Sink, D: Sink>(
    alloc: Global,
    all: io::Result<Args>,
    input: &mut S,
    shelf: &mut H,
    out: &mut K,
    diag: &mut D,
) -> Status
    ensures run { LacksWords (change_of D.held D.faults diag.old diag.new) result
        input.old input.new shelf.old shelf.new out.old out.new
        ⊎ RunKeeps (words_given all) (S.left input.old) (H.files shelf.old) H.Asked
        (S.faults input.old, S.faults input.new) (H.faults shelf.old, H.faults shelf.new)
        (change_of K.held K.faults out.old out.new)
        (change_of D.held D.faults diag.old diag.new) result
        input.old input.new shelf.old shelf.new out.old out.new diag.old diag.new }
    ensures memory { result ≡ Status.Memory → WasRefused }
    ensures no_text { IfErr all (λ error. error_kind error ≢ OutOfMemory
        → result ≡ Status.Usage) }
{
    match words_behind_first(alloc, all) {
        Ok(words) => run(alloc, &words, input, shelf, out, diag),
        Err(memory) => {
            print_line(diag, b"out of memory\n");
            Status::Memory
        }
    }
}

// The words after the first one. Words that are not text are no command, just as no words are.
fn words_behind_first(alloc: Global, all: io::Result<Args>) -> Result<Vec<String>, Memory>
    ensures no_text { IfErr all (λ error. error_kind error ≢ OutOfMemory → IfErr result (λ _. ⊥)) }
    ensures no_words { IfErr all (λ error. IfOk result (λ words. words.items ≡ [])) }
    ensures words { IfOk all (λ args. IfOk result (λ words.
        words.items ≡ drop 1 (into_iter_items args))) }
{
    match all {
        Ok(mut all) => {
            let _name = all.next();
            words_left(alloc, all)
        }
        Err(error) => match error.kind() {
            io::ErrorKind::OutOfMemory => Err(refused_for_words(&error)),
            _ => Ok(Vec::new(alloc)),
        },
    }
}

// The library reports out of memory for the words only if a request was refused; that is assumed
// here.
#[tactic(auto, using(card_set::specs::Refusal::an_allocator_said_so))]
fn refused_for_words(_error: &io::Error) -> Memory
    requires { error_kind _error.now ≡ OutOfMemory }
{
    Memory {}
}

// All words that are left.
fn words_left(alloc: Global, mut all: Args) -> Result<Vec<String>, Memory>
    ensures { IfOk result (λ words. words.items ≡ into_iter_items all) }
{
    let mut words = Vec::new(alloc);
    while let Some(word) = all.next() {
        words.try_push(word)?;
    }
    Ok(words)
}
