//! What the programs say of themselves.

/// All programs.
const ALL: &str = "\
docpage keeps documents in one file and answers MongoDB-style commands.

  docpage ask FILE [--db NAME] [--all] [--pretty] [COMMAND]..
  docpage import FILE NAMESPACE
  docpage export FILE NAMESPACE [--canonical]
  docpage check FILE
  docpage dump FILE NAMESPACE
  docpage exec FILE
  docpage listen FILE --port P [--idle-seconds S] [--drivers]
  docpage serve FILE --port P --connections N --turns T
  docpage help [WORD]

NAMESPACE is a database's name and a collection's, as test.people. For instance:

  docpage ask people.docpage '{\"insert\": \"people\", \"documents\": [{\"_id\": 1, \"name\": \"Ada\"}]}'
  docpage ask people.docpage '{\"find\": \"people\"}'
";

const ASK: &str = "\
docpage ask FILE [--db NAME] [--all] [--pretty] [COMMAND]..

Asks commands in MongoDB Extended JSON and prints each reply on a line: the commands given, or, where none
is, each line of standard input. FILE is made if it is missing. The status is 1 where a command was refused.

  --db NAME   the database of commands that name none (test)
  --all       follows a cursor to its end
  --pretty    lays replies out on several lines

  docpage ask people.docpage '{\"find\": \"people\", \"filter\": {\"age\": {\"$gte\": 30}}}'
";

const IMPORT: &str = "\
docpage import FILE NAMESPACE

Inserts the documents of standard input, one a line in MongoDB Extended JSON, in batches of at most 1,000,
each of which is committed whole. FILE is made if it is missing. A line that is no document ends it, by its
number; what came before it stays.

  docpage import people.docpage test.people <people.json
";

const EXPORT: &str = "\
docpage export FILE NAMESPACE [--canonical]

Prints the documents of a collection, one a line in MongoDB Extended JSON, in ascending order of _id.

  --canonical   the form that reads back as the same documents, with each number's type

  docpage export people.docpage test.people >people.json
";

const CHECK: &str = "\
docpage check FILE

Reads the whole file, judges every page and document and that its indexes agree with them, and prints how
much there is: the number of the last commit, collections, documents, indexes (with those on _id), pages, and
how many of these are free. FILE is read and never written. A file that is not sound is the fault Damaged.

  docpage check people.docpage
";

const DUMP: &str = "\
docpage dump FILE NAMESPACE

Prints the documents of a collection as the file has them: the bytes of each as BSON in lower case
hexadecimal, one document a line, in ascending order of _id. FILE is read and never written. A collection
that is missing is the fault NamespaceNotFound.

  docpage dump people.docpage test.people
";

const EXEC: &str = "\
docpage exec FILE

Answers one connection: frames of OP_MSG on standard input, replies on standard output. FILE is made if it
is missing.

  docpage exec people.docpage <frames >replies
";

const LISTEN: &str = "\
docpage listen FILE --port P [--idle-seconds S] [--drivers]

Answers every connection to 127.0.0.1:P, 64 at a time, until a signal ends it. Port 0 is any that is free;
it is printed.

  --idle-seconds S   closes a connection that has sent nothing for so long
  --drivers          translates for MongoDB drivers, 1,024 connections at a time

  docpage listen people.docpage --port 27017 --drivers
";

const SERVE: &str = "\
docpage serve FILE --port P --connections N --turns T

Accepts N connections (1 to 64) to 127.0.0.1:P and answers them for T turns at most, or until all have ended.

  docpage serve people.docpage --port 27017 --connections 2 --turns 100
";

/// What is said of a program, or of all where there is none of this name.
fn page(word: &str) -> &'static str {
    match word {
        "ask" => ASK,
        "import" => IMPORT,
        "export" => EXPORT,
        "check" => CHECK,
        "dump" => DUMP,
        "exec" => EXEC,
        "listen" => LISTEN,
        "serve" => SERVE,
        _ => ALL,
    }
}

/// Whether a word asks for help.
fn asks_help(word: &str) -> bool {
    word == "--help" || word == "-h"
}

/// What is printed for words that ask for help; the first word is the name under which the program was started.
pub fn help_for(words: &[String]) -> Option<&'static str> {
    let first = words.get(1)?.as_str();
    if first == "help" {
        return Some(match words.get(2) {
            Some(word) => page(word.as_str()),
            None => ALL,
        });
    }
    if words.iter().any(|word| asks_help(word.as_str())) {
        Some(page(first))
    } else {
        None
    }
}
