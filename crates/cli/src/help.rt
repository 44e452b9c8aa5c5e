ghost use Rattle.std.specs.Prelude.{◌≡◌, map, string_bytes};
ghost use Rattle.cli.specs.Help.{help_asked, help_on};

const PROGRAM: &str = "\
Keeps blobs and results of builds, and verifies builds from digests

Usage: buildcache <COMMAND>

Commands:
  serve    Serve a cache over HTTP
  verify   Say whether every build of a plan ends in exactly the claimed root
  put      Upload a file, or a folder with all below it, and print its digest
  get      Write a blob to standard output, or a tree into a folder
  digest   Print the digest of a file, or of a folder with all below it
  build    Build a plan, and write the record of the build
  compare  Say in which step two recorded builds of a plan differ

Options:
  -h, --help     Print help
  -V, --version  Print version

Status:
  0  Yes, or done
  1  No, or a step was refused, as standard output says; or no such blob
  2  The command line, a digest, the plan or the record is invalid
  3  A file, the server, a process or memory failed: no verdict
";

const SERVE: &str = "\
Serve a cache over HTTP

Usage: buildcache serve [OPTIONS] --listen <ADDR> --limit <BYTES> --result-limit <BYTES>

Options:
      --listen <ADDR>         Address to listen on, HOST:PORT; port 0: any free port
      --limit <BYTES>         Most bytes of blobs, as 8G; one blob has at most 16M. K, M, G and T
                              are powers of 1,024
      --result-limit <BYTES>  Most bytes of action results; each counts its length plus 64
      --prefix <P>            Path before /cas and /ac, like /team/main
      --idle <SECONDS>        Seconds of silence after which a client is disconnected; 0: never
                              [default: 60]
      --at-once <N>           Most connections held at a time, 1 to 1024 [default: 256; with
                              --connections 1]
      --connections <N>       Exit after this many connections; by default never
  -h, --help                  Print help

Status:
  0  As many connections as --connections says were served
  2  The command line is invalid
  3  Listening, accepting, random bytes, standard output or memory failed
";

const VERIFY: &str = "\
Say whether every build of a plan ends in exactly the claimed root

Usage: buildcache verify [OPTIONS] <EVIDENCE>
       buildcache verify [OPTIONS] --sources <DIGEST> --plan <FILE> --record <FILE> \
<--claim <DIGEST>|--artifact <FOLDER>> <--server <ADDR>|--store <FOLDER>>

Arguments:
  <EVIDENCE>  A folder with the files sources, claim, plan and record and the folder store, or a
              tar archive of it; of a build in stages, with the file stages and a folder of each
              (docs/FORMATS.md). Beside it go --sources, and --claim or --artifact, in place of its
              files, and --server, which is asked for blobs alone

Options:
      --server <ADDR>      Server that has the recorded build, HOST:PORT
      --store <FOLDER>     Folder that has it: blobs in cas/HASH and results in ac/HASH
      --results <FOLDER>   Folder of the results, in ac/HASH; --server is asked for blobs alone
      --prefix <P>         Path before /cas and /ac on the server, like /team/main
      --timeout <SECONDS>  Seconds of silence after which the server has failed; 0: never
                           [default: 60]
      --sources <DIGEST>   Digest of the source tree, HASH/SIZE
      --plan <FILE>        The plan's file (docs/FORMATS.md)
      --record <FILE>      The record's file (docs/FORMATS.md)
      --claim <DIGEST>     Claimed digest of the root, HASH/SIZE
      --artifact <FOLDER>  Folder whose tree is the claimed root, as it is read
      --no-bits            Take each file of that folder as not executable, as put does
      --keep <FILE>        Archive to write of all that the verdict looks at: evidence by itself, on
                           which verify prints the same line
  -h, --help               Print help

Status:
  0  Yes
  1  No, for the cause on standard output
  2  The command line, a digest, the plan or the record is invalid
  3  A file, the server, standard output or memory failed: no verdict, and nothing kept
";

const PUT: &str = "\
Upload a file, or a folder with all below it, and print its digest

Usage: buildcache put [OPTIONS] --server <ADDR> <PATH>

Arguments:
  <PATH>  The file or the folder; files are put without their executable bit

Options:
      --server <ADDR>      Server to upload to, HOST:PORT
      --prefix <P>         Path before /cas and /ac on the server, like /team/main
      --timeout <SECONDS>  Seconds of silence after which the server has failed; 0: never
                           [default: 60]
  -h, --help               Print help

Status:
  0  All was uploaded, and the digest printed
  2  The command line is invalid
  3  A file, the server, standard output or memory failed, or an entry can't be put
";

const GET: &str = "\
Write a blob to standard output, or a tree into a folder

Usage: buildcache get [OPTIONS] --server <ADDR> <DIGEST>

Arguments:
  <DIGEST>  Digest of the blob or of the tree, HASH/SIZE

Options:
      --server <ADDR>      Server to ask, HOST:PORT
      --prefix <P>         Path before /cas and /ac on the server, like /team/main
      --timeout <SECONDS>  Seconds of silence after which the server has failed; 0: never
                           [default: 60]
      --into <FOLDER>      Write the tree into this folder, new or empty
  -h, --help               Print help

Status:
  0  The blob or the tree was written
  1  The server has no such blob, or lacks one of the tree
  2  The command line or the digest is invalid
  3  The folder, the server, standard output or memory failed
";

const DIGEST: &str = "\
Print the digest of a file, or of a folder with all below it

Usage: buildcache digest [OPTIONS] <PATH>

Arguments:
  <PATH>  The file or the folder; nothing is uploaded or written

Options:
      --no-bits  Take each file as not executable, as put does; by default its owner's bit counts
  -h, --help     Print help

Status:
  0  The digest was printed
  2  The command line is invalid
  3  A file or standard output failed, or an entry has no place in a tree
";

const BUILD: &str = "\
Build a plan, and write the record of the build

A step's result is taken from the server, or else the step is run and its result uploaded. What a
step writes to its standard output is thrown away.

Usage: buildcache build [OPTIONS] --server <ADDR> --sources <DIGEST> --plan <FILE> \
--record <FILE> --work <FOLDER>

Options:
      --server <ADDR>      Server that has the sources, and takes the results, HOST:PORT
      --prefix <P>         Path before /cas and /ac on the server, like /team/main
      --timeout <SECONDS>  Seconds of silence after which the server has failed; 0: never
                           [default: 60]
      --sources <DIGEST>   Digest of the source tree, HASH/SIZE
      --plan <FILE>        The plan's file (docs/FORMATS.md)
      --record <FILE>      Write the record to this file
      --work <FOLDER>      An existing empty folder, in which each step runs in a folder of its own
      --jobs <J>           Most steps that run at once, 1 to 64 [default: 1]
      --verbose            Show the steps' standard error
  -h, --help               Print help

Status:
  0  Built: the root is printed, and the record written
  1  A step or the root was refused, as standard output says
  2  The command line, the digest or the plan is invalid
  3  A file, the server, a process or memory failed
";

const COMPARE: &str = "\
Say in which step two recorded builds of a plan differ

Usage: buildcache compare <EVIDENCE> <EVIDENCE>

Arguments:
  <EVIDENCE>  A folder with the files sources, claim, plan and record and the folder store, or a
              tar archive of it (docs/FORMATS.md); of one plan, not of a build in stages. Both are
              verified first

Options:
  -h, --help  Print help

Status:
  0  The same: each step came to the same outputs, and the roots are one
  1  They differ, as standard output says; or one has a no
  2  The command line, a digest, a plan or a record is invalid
  3  A file, standard output or memory failed: nothing is said
";

/// The help of a command, and that of the program where no command has the name.
fn help_on(name: &str) -> &'static str
    ensures { result.now ≡ help_on name.now }
{
    match name {
        "serve" => SERVE,
        "verify" => VERIFY,
        "put" => PUT,
        "get" => GET,
        "digest" => DIGEST,
        "build" => BUILD,
        "compare" => COMPARE,
        _ => PROGRAM,
    }
}

/// The help that the words ask for: that of the command that they name first, and else that of the
/// program.
pub(crate) fn help_asked(words: &[String]) -> &'static str
    ensures { result.now ≡ help_asked (map string_bytes words.now) }
{
    match words.first() {
        Some(word) => help_on(word.as_str()),
        None => PROGRAM,
    }
}
