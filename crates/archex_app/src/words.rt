// The words of a command.
ghost use Rattle.std.specs.Prelude.{◌≡◌, ◌≢◌, ◌≤◌, length, Ok, Err, Some, None, IfOk, IfErr, OnOk};
ghost use Rattle.std.specs.Fmt.{decimal};
ghost use Rattle.std.specs.Str.{bytes_eq};
ghost use Rattle.archex_app.specs.Words.{texts, command_of, solve_of, check_of, weigh_of, cuts_of};
ghost use Rattle.archex_app.specs.Words.{probability_of, template_of, rows_of, generate_of};
ghost use Rattle.archex_app.specs.Words.{bad_name, empty_word};
ghost use Rattle.archex_app.specs.Words as spec;
ghost use Rattle.archex_app.specs.Commands.{asked, IsInRange};

use generate::LARGEST_SIZE;
use itoa::Buffer;
use search_core::limits::{BRANCHINGS, WORKERS};

/// What the words ask for.
#[derive(Clone, Copy)]
pub enum Command<'a> {
    /// To search a library, and to log the search.
    Solve {
        /// The library's name.
        lib: &'a str,
        /// The log's name, which is another.
        log: &'a str,
        /// The limit of branchings, 0 to 100000.
        branchings: u32,
        /// How many workers there are, 1 to 64.
        workers: u32,
        /// How many of them are analysts, at most all.
        analysts: u32,
    },
    /// To check a log against a library: their names, which may be one.
    Check {
        lib: &'a str,
        log: &'a str,
    },
    /// What an architecture of a library comes to: their names.
    Weigh {
        lib: &'a str,
        arch: &'a str,
    },
    /// The minimal cut sets of a component of role sink, in an architecture of a library: their
    /// names.
    Cuts {
        lib: &'a str,
        arch: &'a str,
        sink: &'a str,
    },
    /// The failure mass of a component of role sink, in an architecture of a library: their names.
    Probability {
        lib: &'a str,
        arch: &'a str,
        sink: &'a str,
    },
    /// The template of a library: its name.
    Template {
        lib: &'a str,
    },
    /// The base rows of a library: its name.
    Rows {
        lib: &'a str,
    },
    /// To make a library from a number, and to search it.
    Generate {
        /// The number.
        number: u64,
        /// How many groups the library has, 1 to 16.
        size: u32,
        /// The name under which the library is written.
        file: &'a str,
        /// The log's name, which is another.
        log: &'a str,
    },
}

/// The words were refused.
#[derive(Clone, Copy, Debug, PartialEq, Eq)]
pub struct WordFault {
    /// The place, counted from 1, of the first word that isn't as it should be: first the command,
    /// then a missing word (one past the last), then the first word too many, then the leftmost bad
    /// one.
    pub place: u32,
}

// What is wrong with words after a command that aren't as many as it takes.
fn miscounted(wanted: usize, args: &[String]) -> WordFault
    requires { wanted ≤ 9 }
    ensures { result.place ≡ spec.miscounted wanted (texts args.now) }
{
    let place = wanted.min(args.len()) as u32 + 2;
    WordFault { place }
}

// None of the words after a command may be empty.
fn check_words(args: &[String]) -> Result<(), WordFault>
    requires { length args.now ≤ 9 }
    ensures fine { OnOk result (empty_word 2 (texts args.now) ≡ None) }
    ensures fault { IfErr result (λ fault. empty_word 2 (texts args.now) ≡ Some fault.place) }
{
    for (k, word) in args.iter().enumerate() {
        if word.as_str().is_empty() {
            return Err(WordFault {
                place: k as u32 + 2,
            });
        }
    }
    Ok(())
}

// Whether a word is the decimal text of a number.
fn is_text_of(word: &str, number: u64) -> bool
    ensures { result ≡ bytes_eq (decimal number) word.now }
{
    let mut digits = Buffer::new();
    digits.format(number) == word
}

// The number of which a word is the decimal text, so without sign or leading zero, where it lies
// from a least to a greatest one.
fn numeral(word: &str, least: u64, most: u64) -> Option<u64>
    ensures { result ≡ spec.numeral least most word.now }
{
    let Ok(number) = word.parse::<u64>() else {
        return None;
    };
    if is_text_of(word, number) && least <= number && number <= most {
        return Some(number);
    }
    None
}

// The number at a place, unless the word there is none.
fn number_at(place: u32, word: &str, least: u64, most: u64) -> Result<u64, WordFault>
    ensures number { IfOk result (λ n. spec.numeral least most word.now ≡ Some n) }
    ensures range { IfOk result (λ n. (least ≤ n) × (n ≤ most)) }
    ensures fault { IfErr result (λ fault. (fault.place ≡ place)
        × (spec.numeral least most word.now ≡ None)) }
{
    match numeral(word, least, most) {
        Some(number) => Ok(number),
        None => Err(WordFault { place }),
    }
}

// A number that isn't above 2^32 - 1.
fn count_at(place: u32, word: &str, least: u32, most: u32) -> Result<u32, WordFault>
    ensures number { IfOk result (λ n. spec.numeral least most word.now ≡ Some n) }
    ensures range { IfOk result (λ n. (least ≤ n) × (n ≤ most)) }
    ensures fault { IfErr result (λ fault. (fault.place ≡ place)
        × (spec.numeral least most word.now ≡ None)) }
{
    let number = number_at(place, word, u64::from(least), u64::from(most))?;
    Ok(number as u32)
}

// Two names, of which the first stands at a place: neither may be empty, and the log's is another.
fn check_names(place: u32, first: &str, log: &str) -> Result<(), WordFault>
    requires { place ≤ 9 }
    ensures fine { OnOk result (bad_name place first.now log.now ≡ None) }
    ensures apart { OnOk result (first.now ≢ log.now) }
    ensures fault { IfErr result (λ fault. bad_name place first.now log.now ≡ Some fault.place) }
{
    if first.is_empty() {
        return Err(WordFault { place });
    }
    if log.is_empty() || log == first {
        return Err(WordFault { place: place + 1 });
    }
    Ok(())
}

// The words after `solve`.
fn read_solve(args: &[String]) -> Result<Command<'_>, WordFault>
    ensures command { IfOk result (λ command. solve_of (texts args.now) ≡ Ok (asked command)) }
    ensures range { IfOk result IsInRange }
    ensures fault { IfErr result (λ fault. solve_of (texts args.now) ≡ Err fault.place) }
{
    let [lib, log, branchings, workers, analysts] = args else {
        return Err(miscounted(5, args));
    };
    check_names(2, lib.as_str(), log.as_str())?;
    let branchings = count_at(4, branchings.as_str(), 0, BRANCHINGS)?;
    let workers = count_at(5, workers.as_str(), 1, WORKERS)?;
    let analysts = count_at(6, analysts.as_str(), 0, workers)?;
    Ok(Command::Solve {
        lib: lib.as_str(),
        log: log.as_str(),
        branchings,
        workers,
        analysts,
    })
}

// The words after `check`.
fn read_check(args: &[String]) -> Result<Command<'_>, WordFault>
    ensures command { IfOk result (λ command. check_of (texts args.now) ≡ Ok (asked command)) }
    ensures range { IfOk result IsInRange }
    ensures fault { IfErr result (λ fault. check_of (texts args.now) ≡ Err fault.place) }
{
    let [lib, log] = args else {
        return Err(miscounted(2, args));
    };
    check_words(args)?;
    Ok(Command::Check {
        lib: lib.as_str(),
        log: log.as_str(),
    })
}

// The words after `weigh`.
fn read_weigh(args: &[String]) -> Result<Command<'_>, WordFault>
    ensures command { IfOk result (λ command. weigh_of (texts args.now) ≡ Ok (asked command)) }
    ensures range { IfOk result IsInRange }
    ensures fault { IfErr result (λ fault. weigh_of (texts args.now) ≡ Err fault.place) }
{
    let [lib, arch] = args else {
        return Err(miscounted(2, args));
    };
    check_words(args)?;
    Ok(Command::Weigh {
        lib: lib.as_str(),
        arch: arch.as_str(),
    })
}

// The words after `cuts`.
fn read_cuts(args: &[String]) -> Result<Command<'_>, WordFault>
    ensures command { IfOk result (λ command. cuts_of (texts args.now) ≡ Ok (asked command)) }
    ensures range { IfOk result IsInRange }
    ensures fault { IfErr result (λ fault. cuts_of (texts args.now) ≡ Err fault.place) }
{
    let [lib, arch, sink] = args else {
        return Err(miscounted(3, args));
    };
    check_words(args)?;
    Ok(Command::Cuts {
        lib: lib.as_str(),
        arch: arch.as_str(),
        sink: sink.as_str(),
    })
}

// The words after `probability`.
fn read_probability(args: &[String]) -> Result<Command<'_>, WordFault>
    ensures command { IfOk result (λ command. probability_of (texts args.now) ≡ Ok (asked command)) }
    ensures fault { IfErr result (λ fault. probability_of (texts args.now) ≡ Err fault.place) }
{
    let [lib, arch, sink] = args else {
        return Err(miscounted(3, args));
    };
    check_words(args)?;
    Ok(Command::Probability {
        lib: lib.as_str(),
        arch: arch.as_str(),
        sink: sink.as_str(),
    })
}

// The word after `template`.
fn read_template(args: &[String]) -> Result<Command<'_>, WordFault>
    ensures command { IfOk result (λ command. template_of (texts args.now) ≡ Ok (asked command)) }
    ensures range { IfOk result IsInRange }
    ensures fault { IfErr result (λ fault. template_of (texts args.now) ≡ Err fault.place) }
{
    let [lib] = args else {
        return Err(miscounted(1, args));
    };
    check_words(args)?;
    Ok(Command::Template { lib: lib.as_str() })
}

// The word after `rows`.
fn read_rows(args: &[String]) -> Result<Command<'_>, WordFault>
    ensures command { IfOk result (λ command. rows_of (texts args.now) ≡ Ok (asked command)) }
    ensures range { IfOk result IsInRange }
    ensures fault { IfErr result (λ fault. rows_of (texts args.now) ≡ Err fault.place) }
{
    let [lib] = args else {
        return Err(miscounted(1, args));
    };
    check_words(args)?;
    Ok(Command::Rows { lib: lib.as_str() })
}

// The words after `generate`.
fn read_generate(args: &[String]) -> Result<Command<'_>, WordFault>
    ensures command { IfOk result (λ command. generate_of (texts args.now) ≡ Ok (asked command)) }
    ensures range { IfOk result IsInRange }
    ensures fault { IfErr result (λ fault. generate_of (texts args.now) ≡ Err fault.place) }
{
    let [number, size, file, log] = args else {
        return Err(miscounted(4, args));
    };
    let number = number_at(2, number.as_str(), 0, u64::MAX)?;
    let size = count_at(3, size.as_str(), 1, LARGEST_SIZE)?;
    check_names(4, file.as_str(), log.as_str())?;
    Ok(Command::Generate {
        number,
        size,
        file: file.as_str(),
        log: log.as_str(),
    })
}

/// What the words ask for: `solve LIB LOG BRANCHINGS WORKERS ANALYSTS`, `check LIB LOG`,
/// `weigh LIB ARCH`, `cuts LIB ARCH SINK`, `probability LIB ARCH SINK`, `template LIB`, `rows LIB` or
/// `generate NUMBER SIZE OUT LOG`. An empty word is bad in every place, and so is a log to be written
/// that is the library. Numbers are decimal digits without sign or leading zero.
pub fn read_words(words: &[String]) -> Result<Command<'_>, WordFault>
    ensures command { IfOk result (λ command. command_of (texts words.now) ≡ Ok (asked command)) }
    ensures range { IfOk result IsInRange }
    ensures fault { IfErr result (λ fault. command_of (texts words.now) ≡ Err fault.place) }
{
    let [command, args @ ..] = words else {
        return Err(WordFault { place: 1 });
    };
    match command.as_str() {
        "solve" => read_solve(args),
        "check" => read_check(args),
        "weigh" => read_weigh(args),
        "cuts" => read_cuts(args),
        "probability" => read_probability(args),
        "template" => read_template(args),
        "rows" => read_rows(args),
        "generate" => read_generate(args),
        _ => Err(WordFault { place: 1 }),
    }
}
