//! Lines of advice on standard error if it is a terminal.
use basket::PlanFault;
use basket_advice::{
    Told, fault_advice, report_advice, too_long_advice, unwritten_advice, words_advice,
};
use basket_main::Ending;
use std::io::{ErrorKind, IsTerminal};

/// Prints advice on how the program ends, if there is any and standard error is a terminal.
pub fn advise(rt: &HostRuntime, ending: &Ending, words: &[&str], told: Told) {
    if !rt.stderr().is_terminal() {
        return;
    }
    let advice = match ending {
        Ending::Refused(PlanFault::Usage(text)) => words_advice(rt.alloc(), text.as_str(), words),
        Ending::Ran(invocation, Ok(done)) => {
            report_advice(rt.alloc(), invocation, done.greatest, told)
        }
        Ending::Ran(invocation, Err(fault)) => fault_advice(rt.alloc(), invocation, *fault, told),
        Ending::NotOpened(origin, error) if error.kind() == ErrorKind::FileTooLarge => {
            too_long_advice(rt.alloc(), origin.path())
        }
        Ending::Unanswered(_) => unwritten_advice(rt.alloc(), told),
        _ => return,
    };
    // If memory is out or standard error takes nothing, nobody misses it.
    if let Ok(text) = advice {
        let _ = eprint!(rt; "{text}");
    }
}
