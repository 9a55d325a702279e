//! What help tells of the command and its subcommands.

/// At the top of the whole help.
pub(crate) const PRECOND: &str =
    "Prints conditions on the parameters of a program from which no run violates an assertion";

/// Below the list of subcommands.
pub(crate) const BELOW: &str = "\
A source is one entry with its parameters, locals and statements, as

  entry (x) {
    var y;
    y = x - 1;
    assert (y >= 0);
  }

for which infer prints

  suffices: x - 1 >= 0

A caller is safe who meets one of the lines that begin so. Every caller meets true, and none false:
then no condition was found. docs/LANGUAGE.md of the repository tells the language of sources, and
docs/FORMATS.md the texts of scripts and certificates.

Examples:
  precond infer copy
  precond infer copy --certificate > copy.certificate
  precond replay copy copy.certificate
  precond run copy copy.script
  precond breach price price.script
  precond facts copy --domain=boxes
  precond quick copy --domain=rows
  precond show copy
  precond trial 8

Status:
   0  the answer was printed
   1  a run or some choices violate an assertion, or a certificate is refused: printed
   2  the words are none of these commands: this help was printed
   3  the source spells no program, or none for this command: its first fault was printed
   4  the script or the certificate is not in its format: the first line at fault was printed
   5  a file could not be read
   6  the output could not be written
   7  there was no memory
   8  a file is longer than it may be: which one was printed
   9  a value of the run, or a number of breach, is past the range of numbers: printed
  10  the system did not give the words";

/// Of `infer`.
pub(crate) const INFER: &str = "Prints a condition from which no run violates an assertion";

pub(crate) const INFER_BELOW: &str = "\
Prints a line for each alternative: suffices: and the rows that the parameters have to meet, true
where every caller is safe, or false where nothing was found. With --certificate it prints, in place
of the condition, a certificate that replay checks.

Examples:
  precond infer copy
  precond infer copy --certificate > copy.certificate";

/// Of `replay`.
pub(crate) const REPLAY: &str = "Checks a certificate, whoever made it, and prints its condition";

pub(crate) const REPLAY_BELOW: &str = "\
Prints accepted and the condition, or refused: and the first thing that is wrong, with status 1.

Example:
  precond replay copy copy.certificate";

/// Of `run`.
pub(crate) const RUN: &str = "Prints how a program runs over the choices of a script";

pub(crate) const RUN_BELOW: &str = "\
Prints one line, which begins with violated, and has status 1; with blocked, ended or going; or with
past, and has status 9. A script has a line with entry and a value for each parameter, as entry 3 0,
and then lines with choose, a number that is chosen, and how often where it is more than once, as
choose 1 500.

Example:
  precond run copy copy.script";

/// Of `breach`.
pub(crate) const BREACH: &str = "Prints choices that violate an assertion";

pub(crate) const BREACH_BELOW: &str = "\
Takes the entry of the script, whose choices are not used. Prints safe, or a script with choices
whose run violates an assertion, with status 1, or unsettled where a number leaves the range, with
status 9. It takes programs without loops, assume, tests but * and open ends.

Example:
  precond breach price price.script";

/// Of `facts`.
pub(crate) const FACTS: &str = "Prints what a domain knows at each point of a program";

pub(crate) const FACTS_BELOW: &str = "\
Prints a line for each point: the rows that every state meets which some run brings there, or
nothing where none comes.

Examples:
  precond facts copy --domain=boxes
  precond facts copy --domain=polyhedra";

/// Of `quick`.
pub(crate) const QUICK: &str = "Prints a condition that one domain finds, going backwards";

pub(crate) const QUICK_BELOW: &str = "\
Prints one line: suffices: and the rows that the parameters have to meet. It may ask for more than
infer does.

Examples:
  precond quick copy --domain=rows
  precond quick copy --domain=boxes";

/// Of `show`.
pub(crate) const SHOW: &str = "Prints a program as it was understood, in its canonical text";

pub(crate) const SHOW_BELOW: &str = "\
Example:
  precond show copy";

/// Of `trial`.
pub(crate) const TRIAL: &str = "Prints the size and the condition of a made source with N loops";

pub(crate) const TRIAL_BELOW: &str = "\
Prints how many bytes, points, edges and alternatives there are, and the condition. It reads no
file, and shows how the time grows.

Example:
  precond trial 8";

/// Behind the values and options.
pub(crate) const SOURCE_FILE: &str = "The file with the source: its name has no - in front";

pub(crate) const CERTIFICATE_FILE: &str = "The file with the certificate";

pub(crate) const SCRIPT_FILE: &str = "The file with the script";

pub(crate) const LOOPS: &str = "From 1 to 64, in digits alone";

pub(crate) const CERTIFICATE: &str = "Prints a certificate of the condition";

pub(crate) const FACTS_DOMAIN: &str =
    "boxes (bounds of variables) or polyhedra (rows over several)";

pub(crate) const QUICK_DOMAIN: &str = "rows (what is needed, carried back) or boxes (bounds)";

/// Of words that `clap` reads, and that are no command all the same.
pub(crate) const NO_COMMAND: &str = "\
error: a file is named by a word that is not empty and has no - in front, N is from 1 to 64 in
digits alone, and DOMAIN is one that the help of the command names
";
