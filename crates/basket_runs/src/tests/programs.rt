//! Programs over memory: which inputs are opened, what goes to which stream, and the status.
ghost use Rattle.std.specs.Prelude.{◌≡◌, ◌≤◌, ◌<◌, ◌+◌, ◌-◌, ◌++◌, [], ◌∷◌, codes, false, map, IfOk, None, Some, if◌then◌else◌, vec_capacity, vec_len};
ghost use Rattle.basket_main.specs.Log.{Opening, refusal_of};
ghost use Rattle.std.specs.Option.{option_map_or};
ghost use Rattle.std.specs.Str.{bytes_eq};

use super::*;
use basket::{Origin, SliceSource};
use basket_main::{Ending, ErrorStream, Inputs, perform};
use std::io::ErrorKind;
use std::snapshot::Snapshot;

/// Standard input and two files with these bytes, the names of what was opened, and for clauses
/// what was opened and why it was not.
#[derive(Drop)]
struct Shelf<'a> {
    standard: &'a [u8],
    baskets: &'a [u8],
    sets: &'a [u8],
    opened: String,
    log: Vec<(Snapshot<Origin>, Option<ErrorKind>)>,
}

impl<'a> Shelf<'a> {
    fn find(&self, origin: &Origin) -> io::Result<SliceSource<'a>>
        ensures open { IfOk result (λ found. ⟦<SliceSource<'a> as Source>⟧.at_end found ≡ false) }
        ensures left { IfOk result (λ found. ⟦<SliceSource<'a> as Source>⟧.left found ≡ ⟦<Shelf<'a> as Inputs>⟧.bytes self.now origin.now) }
    {
        match origin.path() {
            None => Ok(SliceSource::new(self.standard)),
            Some("sets") => Ok(SliceSource::new(self.sets)),
            Some("baskets") => Ok(SliceSource::new(self.baskets)),
            Some("too large") => Err(io::Error::from(ErrorKind::OutOfMemory)),
            Some(_) => Err(io::Error::new(ErrorKind::NotFound, "no such file")),
        }
    }
}

/// Why nothing was found, if nothing was.
fn refusal(found: &io::Result<SliceSource<'_>>) -> Option<ErrorKind>
    ensures { result ≡ refusal_of found.now }
{
    match found {
        Ok(_) => None,
        Err(error) => Some(error.kind()),
    }
}

/// Logs what was to be opened, and why it was not, if it was not.
fn note(
    log: &mut Vec<(Snapshot<Origin>, Option<ErrorKind>)>,
    origin: &Origin,
    refusal: Option<ErrorKind>,
)
    requires { vec_len log.old < vec_capacity log.old }
    ensures entries { map {B = Opening} (λ entry. (entry.0.value, entry.1)) log.new.items ≡ map {B = Opening} (λ entry. (entry.0.value, entry.1)) log.old.items ++ (origin.now, refusal) ∷ [] }
    ensures capacity { vec_capacity log.old ≤ vec_capacity log.new }
    ensures len { vec_len log.new ≡ vec_len log.old + 1 }
{
    let _ = log.push((Snapshot::of(origin), refusal));
}

impl<'a> Inputs for Shelf<'a> {
    type Input = SliceSource<'a>;

    type Sets = SliceSource<'a>;

    ghost bytes = { λ s origin. Some (option_map_or (λ path. if bytes_eq path (codes "sets") then s.sets.now else s.baskets.now) origin s.standard.now) };

    ghost opened = { λ s. Some (map (λ entry. (entry.0.value, entry.1)) s.log.items) };

    ghost room = { λ s. vec_capacity s.log - vec_len s.log };

    fn open(&mut self, origin: &Origin) -> io::Result<SliceSource<'a>> {
        let name = origin.path().unwrap_or("standard input");
        let _ = write!(self.opened, "{name};");
        let found = self.find(origin);
        note(&mut self.log, origin, refusal(&found));
        found
    }

    fn open_sets(&mut self, origin: &Origin) -> io::Result<SliceSource<'a>> {
        self.open(origin)
    }
}

/// Standard error, and for clauses the endings that were explained.
#[derive(Drop)]
struct Said {
    text: String,
    log: Vec<Snapshot<Ending>>,
}

impl ErrorStream for Said {
    ghost explained = { λ s. Some (map (λ ending. ending.value) s.log.items) };

    ghost room = { λ s. vec_capacity s.log - vec_len s.log };

    fn explain(&mut self, ending: &Ending) {
        let _ = write!(self.text, "{ending}");
        let _ = self.log.push(Snapshot::of(ending));
    }
}

/// What a program opened, wrote and said, and its status.
type Run = (&'static str, &'static [u8], &'static str, u8);

/// Has a program do what the words ask for, with this room for its output.
fn performed<R: Threads + Sync>(
    rt: &R,
    alloc: Global,
    words: &[&str],
    room: usize,
) -> Result<(String, Vec<u8>, String, u8), Fail> {
    let mut inputs = Shelf {
        standard: b"1 2\n1 x\n",
        baskets: NINE_BASKETS,
        sets: b"2 1\n9\n",
        opened: String::new(alloc),
        log: Vec::with_capacity(alloc, 2)?,
    };
    let mut output = MemSink::new(alloc, room, room, false)?;
    let mut errors = Said {
        text: String::new(alloc),
        log: Vec::with_capacity(alloc, 1)?,
    };
    let ending = perform(
        &NoRandomBytes(rt),
        alloc,
        words,
        &mut inputs,
        &mut output,
        &mut errors,
    );
    Ok((
        inputs.opened,
        output.into_bytes(),
        errors.text,
        ending.status(),
    ))
}

/// Asserts that a program does this. Out of memory is a failure of its own, after which nothing may
/// be written.
fn expect<R: Threads + Sync + Abort>(
    rt: &R,
    alloc: Global,
    words: &[&str],
    room: usize,
    want: Run,
) -> Result<(), Fail> {
    let (opened, out, said, status) = performed(rt, alloc, words, room)?;
    if status == 6 && want.3 != 6 && out.is_empty() {
        return Err(Fail::from(AllocError));
    }
    assert_eq!(rt;
        (opened.as_str(), out.as_slice(), said.as_str(), status),
        want,
        "{words:?}"
    );
    Ok(())
}

#[test]
fn a_report_of_the_file_that_is_named_goes_to_the_output(rt: HostRuntime) -> Result<(), Fail> {
    let words = ["items", "--min", "2", "baskets"];
    expect(
        &rt,
        rt.alloc(),
        &words,
        100,
        ("baskets;", NINE_ITEMS, "", 0),
    )
}

#[test]
fn counts_are_those_of_the_sets_that_are_named(rt: HostRuntime) -> Result<(), Fail> {
    let words = ["count", "--sets", "sets", "baskets"];
    let want = ("baskets;sets;", b"(9)\n1 2 (4)\n9 (0)\n".as_slice(), "", 0);
    expect(&rt, rt.alloc(), &words, 100, want)
}

#[test]
fn each_fault_is_said_on_standard_error_with_its_status(rt: HostRuntime) -> Result<(), Fail> {
    let cases: &[(&[&str], Run)] = &[
        (
            &["items", "--min", "0", "baskets"],
            ("", b"", "basket: bad value for --min\n", 2),
        ),
        (
            &["items", "--min", "2"],
            (
                "standard input;",
                b"",
                "basket: line 2: byte 0x78 is no digit or blank\n",
                3,
            ),
        ),
        (
            &["items", "--min", "2", "none"],
            ("none;", b"", "basket: cannot open none: no such file\n", 4),
        ),
        (
            &["count", "--sets", "none", "baskets"],
            (
                "baskets;none;",
                b"",
                "basket: cannot open none: no such file\n",
                4,
            ),
        ),
        (
            &["sets", "--min", "2", "--limit", "3", "baskets"],
            (
                "baskets;",
                b"",
                "basket: more than 3 frequent itemsets\n",
                5,
            ),
        ),
        (
            &["items", "--min", "2", "too large"],
            ("too large;", b"", "basket: out of memory\n", 6),
        ),
    ];
    for &(words, want) in cases {
        expect(&rt, rt.alloc(), words, 100, want)?;
    }
    Ok(())
}

#[test]
fn an_output_that_is_full_ends_with_4(rt: HostRuntime) -> Result<(), Fail> {
    let words = ["items", "--min", "2", "baskets"];
    let want = (
        "baskets;",
        b"1 (6)\n2 (7".as_slice(),
        "basket: cannot write the report\n",
        4,
    );
    expect(&rt, rt.alloc(), &words, 10, want)?;
    expect(&rt, rt.alloc(), &["--version"], 3, ("", b"bas", "", 4))
}
