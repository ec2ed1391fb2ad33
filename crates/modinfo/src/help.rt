//! The texts of the program about itself.

ghost use Rattle.std.specs.Prelude.{◌≡◌, map};
ghost use Rattle.modinfo.specs.Help.{help_on};

/// The line on the error output for wrong arguments.
pub const USAGE: &str = "modinfo: usage: modinfo analyze, modinfo convert or modinfo reach";

/// The output of `--version`.
pub const VERSION: &str = "modinfo 0.1.0\n";

/// The output of `--help`.
pub const HELP: &str = r#"modinfo: what one JavaScript or TypeScript module depends on

usage: modinfo files [--null | FILE ..]
       modinfo analyze [--source | --estree] [--lines]
       modinfo check [analyze] [--source | --estree] [--lines] [--strict]
       modinfo check convert | reach [--lines] [--strict]
       modinfo convert | reach [--lines]
       modinfo -h | --help | COMMAND --help | -V | --version

  files    what each of many files depends on
  analyze  what one module depends on, from its text or its tree
  check    where a document has an error, and what was expected
  convert  stored information of version 1 in version 2
  reach    the keys that a root reaches among modules

  $ printf 'import "./b.ts";' > a.ts && modinfo files a.ts
  $ git ls-files -z '*.ts' | modinfo files --null
  $ echo '{"specifier":"file:///a.ts","source":"import \"./b.ts\";"}' |
      modinfo analyze --source

Status 0: the result is printed. 1: a fault; its name is on the error output, or
in a line of files and check. 2: other words. COMMAND --help prints more on a
command.
"#;

/// The output of `files --help`.
pub const FILES_HELP: &str = r#"modinfo files: what each of many files depends on

usage: modinfo files [--null | FILE ..]

Reads the files, or those whose names are in the standard input, one on each line. Prints for each
{"specifier":URL,"info":MODULEINFO}, or
{"specifier":URL,"fault":{"name":NAME,"message":TEXT,"position":[N,N]}}, and has status 1 if there
was a fault. Opens regular files of at most 64 MiB alone, no folder, and nothing in /proc or /sys.
Write ./-a.ts for a name that begins with -.

  --null    names in the standard input end with zero bytes, not with lines

  $ printf 'import "./b.ts";' > a.ts && modinfo files a.ts
  $ git ls-files -z '*.ts' | modinfo files --null

A process uses one core. For four, whose order is lost, give each a file of its own, since processes
that share a pipe mix their lines:

  $ mkdir -p out
  $ git ls-files -z '*.ts' | xargs -0 -n 500 -P 4 sh -c 'modinfo files "$@" > "$(mktemp -p out)"' _

Faults:

  Input            a name or a file can't be read, isn't UTF-8, or is no regular file
  Syntax           the text has a syntax error
  Defect           what was read isn't the text's: a defect of modinfo, please report the text
  Output           a write fails; there is no line if that is because the reader of the output ended
  OutOfMemory      an allocation failed
"#;

/// The output of `analyze --help`.
pub const ANALYZE_HELP: &str =
    r#"modinfo analyze: what one module depends on, from its text or its tree

usage: modinfo analyze [--source | --estree] [--lines]

Reads {"specifier":URL,"mediaType":NAME,"source":TEXT,"program":TREE,..}, a parsed module, from the
standard input. Prints its ModuleInfo as one line of JSON.

  --source  reads {"specifier":URL,"source":TEXT,"mediaType":NAME}, a source text, with the media
            type of the specifier where none is named
  --estree  "program" is the tree of a parser, as ESTree describes it, with its "comments"
  --lines   each line of the input is a document, and each line of the output the result of one, in
            the same order: {"answer":RESULT} or {"fault":NAME}, of check the report alone; the
            status is 0 whatever the results are, of check if each passes

  $ echo '{"specifier":"file:///a.ts","source":"import \"./b.ts\";"}' | modinfo analyze --source
  {"dependencies":[{"kind":"import","sideEffect":true,"specifier":"./b.ts","specifierRange":[[0,7],[0,15]],"type":"static"}]}

Faults:

  Input            a read fails, or the input isn't UTF-8
  Json             the input is no JSON, nests deeper than 127, or has a number too large for a
                   float
  Tree             the JSON isn't a module document
  Specifier        the specifier is no URL
  Syntax           with --source: the text has a syntax error
  Defect           with --source: what was read isn't the text's: a defect of modinfo, please report
                   the text
  RangeReversed, RangeOutside, RangeOffBoundary, CommentText, CommentsOverlap, Shape
                   the tree or the comments don't fit the source
  Output           a write fails; there is no line if that is because the reader of the output ended
  OutOfMemory      an allocation failed
"#;

/// The output of `check --help`.
pub const CHECK_HELP: &str = r#"modinfo check: where a document has an error, and what was expected

usage: modinfo check [analyze] [--source | --estree] [--lines] [--strict]
       modinfo check convert | reach [--lines] [--strict]

Reads a document of the named command, of analyze where none is named. Prints {"valid":true} with
warnings where there are any, or
{"fault":NAME,"pointer":..,"at":{"line":N,"column":N,..},"expected":..}, where the pointer leads to
the value with the fault, and at is there for JSON that can't be read and for a syntax error. Has
status 1 for a document with a fault, with --lines too. The faults in it are those of the command.

  --source  reads {"specifier":URL,"source":TEXT,"mediaType":NAME}, a source text, with the media
            type of the specifier where none is named
  --estree  "program" is the tree of a parser, as ESTree describes it, with its "comments"
  --lines   each line of the input is a document, and each line of the output the result of one, in
            the same order: {"answer":RESULT} or {"fault":NAME}, of check the report alone; the
            status is 0 whatever the results are, of check if each passes
  --strict  a warning counts as a fault does

  $ echo '{"specifier":"file:///a.ts","source":"let a = ;"}' | modinfo check --source
  {"fault":"Syntax","pointer":"/source","at":{"line":0,"column":8,"offset":8},"expected":"an expression"}

Faults:

  Input            a read fails, or the input isn't UTF-8
  Output           a write fails; there is no line if that is because the reader of the output ended
  OutOfMemory      an allocation failed
"#;

/// The output of `convert --help`.
pub const CONVERT_HELP: &str = r#"modinfo convert: stored information of version 1 in version 2

usage: modinfo convert [--lines]

Reads the ModuleInfo of one module as version 1 stored it from the standard input. Prints that of
version 2 as one line.

  --lines   each line of the input is a document, and each line of the output the result of one, in
            the same order: {"answer":RESULT} or {"fault":NAME}, of check the report alone; the
            status is 0 whatever the results are, of check if each passes

  $ echo '{"dependencies":[{"leadingComments":[]}]}' | modinfo convert
  {"dependencies":[{}]}

Faults:

  Input            a read fails, or the input isn't UTF-8
  Json             the input is no JSON, nests deeper than 127, or has a number too large for a
                   float
  Float            a number isn't held as a whole number
  ColumnOverflow   a column is above 2^64 - 1
  Output           a write fails; there is no line if that is because the reader of the output ended
  OutOfMemory      an allocation failed
"#;

/// The output of `reach --help`.
pub const REACH_HELP: &str = r#"modinfo reach: the keys that a root reaches among modules

usage: modinfo reach [--lines]

Reads {"root":KEY,"modules":{KEY:MODULEINFO,..}} from the standard input. Prints the keys that the
root reaches, ascending.

  --lines   each line of the input is a document, and each line of the output the result of one, in
            the same order: {"answer":RESULT} or {"fault":NAME}, of check the report alone; the
            status is 0 whatever the results are, of check if each passes

  $ echo '{"root":"a:b","modules":{"a:b":{},"a:c":{}}}' | modinfo reach
  ["a:b"]

Faults:

  Input            a read fails, or the input isn't UTF-8
  Json             the input is no JSON, nests deeper than 127, or has a number too large for a
                   float
  Shape            a value in the JSON isn't what is expected there
  Float            a number isn't held as a whole number
  Output           a write fails; there is no line if that is because the reader of the output ended
  OutOfMemory      an allocation failed
"#;

/// Returns the output for words that ask for help.
pub fn help_on(words: &[&str]) -> &'static str
    ensures { result.now ≡ help_on HELP.now FILES_HELP.now ANALYZE_HELP.now CHECK_HELP.now
        CONVERT_HELP.now REACH_HELP.now (map (λ word. word.now) words.now) }
{
    let [name, ..] = words else {
        return HELP;
    };
    if *name == "files" {
        FILES_HELP
    } else if *name == "analyze" {
        ANALYZE_HELP
    } else if *name == "check" {
        CHECK_HELP
    } else if *name == "convert" {
        CONVERT_HELP
    } else if *name == "reach" {
        REACH_HELP
    } else {
        HELP
    }
}
