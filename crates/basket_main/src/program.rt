ghost use Rattle.std.specs.Prelude.{◌≡◌, ◌≤◌, false, true, List, map, Option, Some, ℕ};
ghost use Rattle.basket_main.specs.Ending.{explanation_of, is_cut_off};
ghost use Rattle.basket_main.specs.Log.{Grows};
ghost use Rattle.basket_main.specs.Program.{Follows, HasDone, HasFault, HasRead, IsRefusal, Writes, is_silent};
ghost use Rattle.basket_plan.specs.Command.{invocation_of_words};

use crate::answer::answer;
use crate::ending::Ending;
use crate::streams::{ErrorStream, Inputs};
use basket::{
    CountPlan, Done, Invocation, Origin, Plan, PlanFault, Sink, Task, invocation_of, run, run_count,
};
use std::alloc::Global;
use std::random::RandomSource;
use std::thread::Threads;

/// Does what the words of a command line ask for, the program's name not among them, and returns
/// how the program ends.
pub fn perform<R: RandomSource + Threads + Sync, I: Inputs, W: Sink, E: ErrorStream>(
    rt: &R,
    alloc: Global,
    words: &[&str],
    inputs: &mut I,
    output: &mut W,
    errors: &mut E,
) -> Ending
    requires output { W.has_failed output.old ≡ false }
    requires inputs { 2 ≤ I.room inputs.old }
    requires errors { 1 ≤ E.room errors.old }
    ensures asked { Follows (map (λ word. word.now) words.now) result (I.opened inputs.old) (I.opened inputs.new) }
    ensures written { Writes (I.bytes inputs.old) result (W.ends_in_flush output.new) (W.taken output.old) (W.taken output.new) }
    ensures untouched { is_silent result ≡ true → output.new ≡ output.old }
    ensures failed { W.has_failed output.new ≡ is_cut_off result }
    ensures ended { HasRead I.Input.at_end I.Sets.at_end result }
    ensures done { HasDone (I.bytes inputs.old) result }
    ensures fault { HasFault I.Input.left I.Input.has_failed I.Sets.has_failed (I.bytes inputs.old) result }
    ensures explained { Grows (E.explained errors.old) (E.explained errors.new) (explanation_of result) }
{
    let ending = obey(rt, alloc, words, inputs, output);
    explain(&ending, errors);
    ending
}

/// Ends a program whose words ask for nothing that can be run: writes help or the version to the
/// output if it was asked for, else says why.
pub fn refuse<W: Sink, E: ErrorStream>(fault: PlanFault, output: &mut W, errors: &mut E) -> Ending
    requires output { W.has_failed output.old ≡ false }
    requires errors { 1 ≤ E.room errors.old }
    ensures refused { IsRefusal fault result }
    ensures written { (bytes : Option (List ℕ) → Option (List ℕ)) → Writes bytes result (W.ends_in_flush output.new) (W.taken output.old) (W.taken output.new) }
    ensures untouched { is_silent result ≡ true → output.new ≡ output.old }
    ensures failed { W.has_failed output.new ≡ is_cut_off result }
    ensures explained { Grows (E.explained errors.old) (E.explained errors.new) (explanation_of result) }
{
    let ending = answer(fault, output);
    explain(&ending, errors);
    ending
}

/// Says on standard error why the program ends, if there is something to say.
fn explain<E: ErrorStream>(ending: &Ending, errors: &mut E)
    requires { 1 ≤ E.room errors.old }
    ensures { Grows (E.explained errors.old) (E.explained errors.new) (explanation_of ending.now) }
{
    if ending.is_explained() {
        errors.explain(ending);
    }
}

/// Does what the words ask for, and explains nothing.
fn obey<R: RandomSource + Threads + Sync, I: Inputs, W: Sink>(
    rt: &R,
    alloc: Global,
    words: &[&str],
    inputs: &mut I,
    output: &mut W,
) -> Ending
    requires output { W.has_failed output.old ≡ false }
    requires inputs { 2 ≤ I.room inputs.old }
    ensures asked { Follows (map (λ word. word.now) words.now) result (I.opened inputs.old) (I.opened inputs.new) }
    ensures written { Writes (I.bytes inputs.old) result (W.ends_in_flush output.new) (W.taken output.old) (W.taken output.new) }
    ensures untouched { is_silent result ≡ true → output.new ≡ output.old }
    ensures failed { W.has_failed output.new ≡ is_cut_off result }
    ensures ended { HasRead I.Input.at_end I.Sets.at_end result }
    ensures done { HasDone (I.bytes inputs.old) result }
    ensures fault { HasFault I.Input.left I.Input.has_failed I.Sets.has_failed (I.bytes inputs.old) result }
{
    match invocation_of(alloc, words) {
        Ok(invocation) => carry_out(rt, alloc, invocation, inputs, output),
        Err(fault) => answer(fault, output),
    }
}

/// Opens the inputs of what is asked for, and runs it over them.
fn carry_out<R: RandomSource + Threads + Sync, I: Inputs, W: Sink>(
    rt: &R,
    alloc: Global,
    invocation: Invocation,
    inputs: &mut I,
    output: &mut W,
) -> Ending
    requires output { W.has_failed output.old ≡ false }
    requires inputs { 2 ≤ I.room inputs.old }
    ensures asked { (words : List (List ℕ)) → invocation_of_words words ≡ Some invocation → Follows words result (I.opened inputs.old) (I.opened inputs.new) }
    ensures written { Writes (I.bytes inputs.old) result (W.ends_in_flush output.new) (W.taken output.old) (W.taken output.new) }
    ensures untouched { is_silent result ≡ true → output.new ≡ output.old }
    ensures failed { W.has_failed output.new ≡ is_cut_off result }
    ensures ended { HasRead I.Input.at_end I.Sets.at_end result }
    ensures done { HasDone (I.bytes inputs.old) result }
    ensures fault { HasFault I.Input.left I.Input.has_failed I.Sets.has_failed (I.bytes inputs.old) result }
{
    let Invocation { task, input } = invocation;
    match task {
        Task::Report(plan) => report(rt, alloc, plan, input, inputs, output),
        Task::Count(plan, sets) => {
            let counting = Counting { plan, sets, input };
            count(rt, alloc, counting, inputs, output)
        }
    }
}

/// Opens the input, and writes a report of it.
fn report<R: RandomSource + Threads + Sync, I: Inputs, W: Sink>(
    rt: &R,
    alloc: Global,
    plan: Plan,
    input: Origin,
    inputs: &mut I,
    output: &mut W,
) -> Ending
    requires output { W.has_failed output.old ≡ false }
    requires inputs { 1 ≤ I.room inputs.old }
    ensures asked { (words : List (List ℕ)) → invocation_of_words words ≡ Some (record { task = Task.Report plan; input = input }) → Follows words result (I.opened inputs.old) (I.opened inputs.new) }
    ensures written { Writes (I.bytes inputs.old) result (W.ends_in_flush output.new) (W.taken output.old) (W.taken output.new) }
    ensures untouched { is_silent result ≡ true → output.new ≡ output.old }
    ensures failed { W.has_failed output.new ≡ is_cut_off result }
    ensures ended { HasRead I.Input.at_end I.Sets.at_end result }
    ensures done { HasDone (I.bytes inputs.old) result }
    ensures fault { HasFault I.Input.left I.Input.has_failed I.Sets.has_failed (I.bytes inputs.old) result }
{
    let mut reader = match inputs.open(&input) {
        Ok(reader) => reader,
        Err(error) => return Ending::NotOpened(input, error),
    };
    let ran = run(rt, alloc, &plan, &mut reader, output);
    let task = Task::Report(plan);
    let invocation = Invocation { task, input };
    match ran {
        Ok(done) => Ending::Ran(invocation, Ok(done)),
        Err(fault) => Ending::Ran(invocation, Err(fault)),
    }
}

/// What is to be counted: how, and where the sets and the input come from.
#[derive(Drop)]
struct Counting {
    plan: CountPlan,
    sets: Origin,
    input: Origin,
}

/// Opens the input and the sets, and counts these.
fn count<R: RandomSource + Threads + Sync, I: Inputs, W: Sink>(
    rt: &R,
    alloc: Global,
    counting: Counting,
    inputs: &mut I,
    output: &mut W,
) -> Ending
    requires output { W.has_failed output.old ≡ false }
    requires inputs { 2 ≤ I.room inputs.old }
    ensures asked { (words : List (List ℕ)) → invocation_of_words words ≡ Some (record { task = Task.Count counting.plan counting.sets; input = counting.input }) → Follows words result (I.opened inputs.old) (I.opened inputs.new) }
    ensures written { Writes (I.bytes inputs.old) result (W.ends_in_flush output.new) (W.taken output.old) (W.taken output.new) }
    ensures untouched { is_silent result ≡ true → output.new ≡ output.old }
    ensures failed { W.has_failed output.new ≡ is_cut_off result }
    ensures ended { HasRead I.Input.at_end I.Sets.at_end result }
    ensures done { HasDone (I.bytes inputs.old) result }
    ensures fault { HasFault I.Input.left I.Input.has_failed I.Sets.has_failed (I.bytes inputs.old) result }
{
    let Counting { plan, sets, input } = counting;
    let mut reader = match inputs.open(&input) {
        Ok(reader) => reader,
        Err(error) => return Ending::NotOpened(input, error),
    };
    let mut lists = match inputs.open_sets(&sets) {
        Ok(lists) => lists,
        Err(error) => return Ending::NotOpened(sets, error),
    };
    let ran = run_count(rt, alloc, &plan, &mut lists, &mut reader, output);
    let task = Task::Count(plan, sets);
    let invocation = Invocation { task, input };
    match ran {
        Ok(()) => Ending::Ran(invocation, Ok(Done::of_counted_sets())),
        Err(fault) => Ending::Ran(invocation, Err(fault)),
    }
}
