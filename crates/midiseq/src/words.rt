//! The words of the command line.

use clap::{Arg, ArgAction, Command};
use std::alloc::{AllocError, Global};

const VERSION: &str = "0.1.0";

const EXAMPLES: &str = "\
run, record, circle and why take a script for each client: a command a line,
each with its moment in nanoseconds. live takes such lines, each with its
client, on standard input, and answers each at once. thru and wire take raw MIDI
bytes, as they come from a cable; dump takes a Standard MIDI File (.mid), make
the text that dump --all prints, and check many files. FILE and TEXT may be -
for standard input, but for check. `midiseq` alone does `thru -`: it waits for
MIDI bytes on standard input.

Examples:
  printf '\\x90\\x3C\\x40' | midiseq thru -
      prints `0 129:p0 90 3C 40`: at moment 0 the note on 90 3C 40 comes to
      port 0 of client 129
  midiseq thru keys.raw
      the same for each message of the MIDI bytes in the file keys.raw
  midiseq wire keys.raw
      prints the messages of keys.raw, and then the stream written anew
  midiseq dump song.mid
      prints the tempos and the messages of the file song.mid
  midiseq dump --all song.mid
      prints every event of it, track by track
  midiseq make song.txt --out new.mid
      writes the file of which song.txt says every event
  midiseq check songs
      says of each .mid file of the folder songs whether it is damaged
  midiseq run --for 1s --strict 128=keys.txt 129=synth.txt
      runs two scripts for a second, and prints the log of each client
  midiseq record --to-end --strict --port 129:0 --out take.mid 128=keys.txt \\
      129=synth.txt
      writes what came to port 0 of client 129 to the file take.mid
  midiseq record --for 4s --strict --ports 129:0,130:1 --out takes.mid \\
      128=keys.txt 129=synth.txt 130=drums.txt
      the same for two ports, each a track of the file takes.mid
  midiseq circle --for 1s --owner 129 128=keys.txt 129=synth.txt
      prints who can change what client 129 hears, and last `shut`, or `open`
  midiseq why --from 128:p0 --at 5 --message \"90 24 64\" 128=keys.txt \\
      129=synth.txt
      prints where this note would arrive, be lost, or be stopped, and by what
  printf '0 128 open keys 9 9\\n0 128 port 0 out 33\\n' | midiseq live
      answers each line: `128 0 line 1 ok`, `next never`, and so on

Status:
  0  done, or help or the version was asked for
  1  a fault, with one line on standard error: a file that cannot be read,
     output that cannot be written, out of memory, a damaged file, a text that
     says no file, a recording that no file can hold; or midiseq check has found
     a file that is not ok, and printed which
  2  words that midiseq cannot follow
  3  midiseq circle has found the circle open, or run or record by --strict a
     line that did nothing, a message that was lost or a file that was left out";

const THRU_HELP: &str = "\
The bytes are a MIDI 1.0 stream as it comes from a cable: status and data
bytes, with running status. They are fed to port 0 of client 128, to which
port 0 of client 129 has subscribed, and each message that comes there is a
line: its moment in nanoseconds (always 0 here), the port as CLIENT:pPORT, and
the message's bytes in hexadecimal. Bytes that make no whole message print
nothing. At most 16,777,216 bytes are taken.

Example:
  printf '\\x90\\x3C\\x40' | midiseq thru -
      prints `0 129:p0 90 3C 40`";

const WIRE_HELP: &str = "\
The bytes are a MIDI 1.0 stream as it comes from a cable. Each message is a
line in hexadecimal, in the order in which their last bytes stand in the
stream: running status is spelled out, real time messages stand on lines of
their own, and what makes no whole message is left out. The last line is
`written` and the bytes of all these messages as one MIDI stream, with running
status. At most 16,777,216 bytes are taken.

Example:
  printf '\\x90\\x3C\\x40\\xF8\\x3E\\xF8\\x40' | midiseq wire -
      prints `90 3C 40`, `F8`, `F8`, `90 3E 40` and
      `written 90 3C 40 F8 F8 3E 40`, each on a line";

const DUMP_HELP: &str = "\
The file is a Standard MIDI File of format 0 or 1. The first line is
`format F tracks N division D`, with the division word as a number: ticks per
quarter note, or, from 32768 on, a division by frames. Then comes a line
`tempo TICK TEMPO` for each tempo entry, in microseconds per quarter note
(none where the division counts frames), and a line `TICK HEX` for each
message of a channel and each system exclusive message, in order of tick, at
one tick by track, and within a track in its order. The last line is
`skipped N`: how many events no message and no tempo could be made of.
A file that is damaged, too large (more than 16,777,216 bytes) or of format 2
prints nothing; its fault is a line of a number, a name and the byte or the
track where it stands, as in `midiseq: 12 NoStatus 30`.

With --all it prints every event, track by track. Below the first line comes a
line `track T` for each track, from 0, and below it a line `TICK EVENT` for each
of its events: a message of a channel in hexadecimal; F0 or F7 and the bytes
that its length counts; or a meta event by its name, its text between quotation
marks and its numbers in decimal, as in `0 name \"Bass\"`, `0 time 4 2 24 8`,
`0 key -3 0` or `960 end`. One that has no name, or not the length that its name
asks for, is `meta TYPE` and its bytes in hexadecimal. With --at each line has
first the byte of the file where it stands, counted from 0: that of an event is
where its delta time begins.

With --lenient a file is taken, too, that leaves out a status behind a meta or a
system exclusive event, or in which bit 7 is set in the data byte of a program
change; and one in a RIFF container (RMID, often .rmi). What was forgiven stands
below the text, with how often and the byte of the first: `forgiven 3 running
status 6977`, `forgiven 1 program change 22`.

Examples:
  midiseq dump song.mid
      prints `format 0 tracks 1 division 480`, `tempo 0 500000`, `0 90 3C 40`,
      `480 90 3C 00` and `skipped 0`, each on a line, for one note that sounds
      for a quarter note
  midiseq dump --all song.mid
      prints `format 0 tracks 1 division 480`, `track 0`, `0 90 3C 40`,
      `480 90 3C 00` and `480 end` for the same file";

const MAKE_HELP: &str = "\
The text is one that `midiseq dump --all` prints, or one that is written like it:
first `format F tracks N division D`, then for each track a line `track T`, from
0, and below it a line `TICK EVENT` for each of its events, the last of which is
`end`. Blank lines and those that begin with # are passed over. The file that is
made says just this: `dump --all` of it prints the text. A status is left out
where it is the running one, and each length has its shortest spelling.

FILE is made or replaced when the whole text was read; it cannot be the text. At
the first line that does not say what was expected, nothing is written, and
standard error has its number, as in `midiseq: line 4: expected an event from
tick 480 on`.

Example, with these lines in song.txt:
  format 0 tracks 1 division 480
  track 0
  0 90 3C 40
  480 90 3C 00
  480 end
  midiseq make song.txt --out song.mid
      writes a file of one note that sounds for a quarter note";

const CHECK_HELP: &str = "\
Each FILE is read as by `midiseq dump`, and has a line: its path, and `ok` or the
fault, a number, a name and the byte or the track where it stands. Of a folder
the files whose names end in .mid are checked, in byte order. A file that cannot
be read has a line too, and the next is tried. The last line has the counts. With
--quiet only the files that are not ok have a line, and there is no last line.
The status is 1 where a file is not ok. With --lenient a file that dump --lenient
takes is ok, as `old.mid: ok, forgiven 3 running status 6977`, and a folder's
files may end in .midi or .rmi, or in capitals, too.

Example, where songs has a file a.mid, and b.mid that ends too early:
  midiseq check songs c.mid
      prints `songs/a.mid: ok`, `songs/b.mid: 10 Truncated 22`,
      `c.mid: cannot read: there is no such file` and
      `ok 1 damaged 1 unread 1`, each on a line";

const RUN_HELP: &str = "\
Each CLIENT=PATH is a client, 128 to 191, and the file of its script. A script
has a command a line, with its moment in nanoseconds first; lines that begin
with # are remarks. What is said at one moment goes by client and then by line.
All that is due by the end is sent before the run ends.

The end is said in one of three ways. --until N is a moment in nanoseconds.
--for TIME is a length of time: one or more numbers with the units h, m, s, ms,
us and ns, as 1m30s or 1500ms. With --to-end the run goes on until nothing is
left to send; what waits on a queue that is stopped is not waited for.

For each client by number comes a line `client N` and its log: `skip LINE WHY`
for each line of its script that is skipped; and in the order of the run
`MOMENT port P HEX` for each message that comes to its port P, and
`MOMENT line LINE` with `ok` or `refused NUMBER NAME` for each command that it
said. With --list comes the listing at the end: clients, ports, filters, queues
and subscriptions. --format json prints an object on a line for each line of a
log, and --format csv a row, below the names of the columns.

With --logs the log of each client is written to a file of the folder DIR, as
DIR/128.log, while the session runs, in place of being printed at the end: a
long run takes no memory for its logs. The folder has to be there, and none of
the files may be a script. They are made anew, or with --append get more behind
what they have.

With --explain standard error tells of each line that did nothing, whether it
was skipped or its command refused, with what to do about it; of each line that
was most likely meant otherwise; of each client that lost messages since its
input pool was full; of each note that still sounds at the end; and why a file
was left out or cannot be read. --strict does the same, and where a line did
nothing, a message was lost or a file was left out, the status is 3.

The files in D whose names end in .mid can be played by these names; the first
256 in byte order are taken. One that cannot be read, or is no regular file or
no Standard MIDI File, is left out, and standard error has a line
`midiseq: left out NAME`. With --lenient more are taken: by what stands in them,
as by `midiseq dump --lenient`, and by names that end in .midi or .rmi, or in
capitals. Standard error has a line for what was forgiven in each, as `midiseq:
old.mid: forgiven 3 running status 6977`.

Example, with these lines in keys.txt and synth.txt:
  0 open keys 100 100             0 open synth 100 100
  0 port 0 out 33                 0 port 0 in 66
  5 send 0 90 3C 40               0 connect 128:p0 129:p0
  midiseq run --until 10 --strict 128=keys.txt 129=synth.txt
      prints `client 128`, `0 line 1 ok`, `0 line 2 ok`, `5 line 3 ok`,
      `client 129`, `0 line 1 ok`, `0 line 2 ok`, `0 line 3 ok` and
      `5 port 0 90 3C 40`, each on a line, and then on standard error that the
      note still sounds";

const RECORD_HELP: &str = "\
The scripts are run as by `midiseq run`, and what came to port N of CLIENT is
written to FILE: a Standard MIDI File of format 0 with 480 ticks per quarter
note of half a second, without system common and real time messages, or with
--raw the messages as one MIDI stream. A port at which nothing arrived gives a
file without messages. FILE is made or replaced when all else is done; until
the new one is whole, what was there stays. It can be none of the scripts and
none of the files of D that scripts may play. --explain and --strict do what
they do of `midiseq run`, and tell of a port that was never there; with --strict
nothing is written then.

With --ports in place of --port the file is of format 1: first a track of
tempos, and then a track for each port of LIST, with its name, as 129:p0. Each
message stands at the last tick that has come. --ppq says how many ticks a
quarter note has, 1 to 32767, and --bpm how many quarter notes a minute has, 4
to 60000000; a quarter note lasts 60000000 / N microseconds, rounded down. With
--like the ticks and the tempos are those of the MIDI file SONG, which play
from the beginning of the run.

`cannot record` comes where more than 268,435,455 ticks lie between two
messages of a track, or the file would have more than 16,777,216 bytes, or LIST
has more than 65,534 ports.

Examples:
  midiseq record --until 1000000000 --strict --port 129:0 --out take.mid \\
      128=keys.txt 129=synth.txt
  midiseq record --for 4s --strict --ports 129:0,130:1 --ppq 96 --bpm 100 \\
      --out takes.mid 128=keys.txt 129=synth.txt 130=drums.txt";

const CIRCLE_HELP: &str = "\
The scripts are read as by `midiseq run`, and nothing is run but by --session.
The circle of a client is the client, all whom its script asks for, all whom
theirs ask for, and so on. A script asks for a client by a line that joins a
node of it to the owner's ports or to a member's filters, parts such a pair, or
names a queue of it. In a circle that is shut, no script of anybody else can
change what comes to the owner's ports, or when.

With --until or --for, as of `midiseq run`, the run until then is meant. Else
the run has no end: what is shut then is shut for every end, and no line of a
script may go back in time.

Without --owner there is a line for each client that has a script: `CLIENT
shut`, with the other members of its circle, or `CLIENT open` with the first
line that leaves it open; status 0 where all are shut.

The lines, in this order:
  circle CLIENT
      the owner
  member CLIENT because line LINE of CLIENT ..
      each other member, and the line that asks for it; it ends in
      `, and has no script` where none of the words has its script
  apart line LINE of CLIENT ..
      a line of the owner that joins or parts at a target outside: what is
      answered to it, others may change
  open line LINE of CLIENT ..: anyone may join it
      a line that makes a port of the owner, or a filter of a member, with
      WRITE 2 and SUBS_WRITE 64
  mend line LINE of CLIENT ..: nobody else may join it
      behind each of these, the same without SUBS_WRITE
  shut, or open
      the answer: status 0 for shut, 3 for open
  closed in this session, or reached by line LINE of CLIENT ..
      last of all, with --session: whether a stranger among these scripts does
      reach in, and by which line first

Example, with the lines of `midiseq run --help`:
  midiseq circle --owner 129 128=keys.txt 129=synth.txt
      prints `circle 129`, `member 128 because line 3 of 129 connects 128:p0
      to 129:p0`, `open line 2 of 129 port 0 caps 66: anyone may join it`,
      how that is mended, and `open`, each on a line. With 2 in place of 66 it
      prints the first two lines and `shut`.";

const WHY_HELP: &str = "\
With --from, --at and --message: the scripts are run as by `midiseq run` until
the moment N, and each line says what would become of the message, were it sent
from the port then: on which way it goes, and whether it arrives, is stopped by
a filter and by which test, or is lost in a full input pool. Nothing is sent.
The oldest way comes first; of more than 1000 ways the last line says how many
more there are.

With --log PATH:LINE: what that line of a script did not do, and what to do
about it, as --explain of `midiseq run` has it. Without --at the run goes on to
its end.

Examples, with these lines in keys.txt and synth.txt:
  0 open keys 100 100             0 open synth 100 100
  0 port 0 out 33                 0 port 0 in 66
  5 send 0 90 3C 40               0 filter 0 3 65535 1023 60 127 0
  6 start 128:q0                  0 connect 128:p0 129:f0
                                  0 connect 129:f0 129:p0
  midiseq why --from 128:p0 --at 5 --message \"90 24 64\" \\
      128=keys.txt 129=synth.txt
      prints `128:p0 > 129:f0 stopped: note 36 is below 60`
  midiseq why --log keys.txt:4 128=keys.txt 129=synth.txt
      prints what is wrong with line 4 of keys.txt";

const LIVE_HELP: &str = "\
A sequencer that runs for as long as its input is open. Each line that is read
is answered at once, before more is read: so a program that has devices and a
clock can let clients play together, as examples/bridge/bridge does. No clock
runs here: what a line says is the time, and all that is due by then is sent
first.

The lines:
  MOMENT CLIENT COMMAND ..
      what a client says, as a line of its script with the client behind the
      moment: `5000 129 connect 128:p0 129:p0`
  MOMENT
      time passes up to this moment in nanoseconds
  list
      asks for clients, ports, filters, queues and subscriptions

The answer to each is a few lines, in this order:
  CLIENT MOMENT port P HEX
      for each message that comes to a port P of CLIENT
  CLIENT MOMENT line LINE ..
      `ok` or `refused NUMBER NAME`, as in the log of a run; LINE counts the
      lines of this client alone
  CLIENT skip LINE WHY, or skip LINE WHY where no client can be told
      for a line of which nothing is done: it is `unreadable`, its moment is
      before that of an earlier line (`late`), or it is `too-long`
  list ..
      for a line of the listing
  next MOMENT, or next never
      always last: when something is due next. Who has the clock waits until
      then, or until something comes in, and says so by a line

A line has at most 262,144 bytes. What stands behind the last line feed is no
line. The end of the input ends the program.

The files in D are those that `midiseq run --dir D` takes, with --lenient too.

Example, with these lines in hello.txt:
  0 128 open a 9 9
  0 128 port 0 out 99
  0 128 port 1 in 99
  0 128 connect 128:p0 128:p1
  5 128 send 0 90 3C 40
  midiseq live < hello.txt
      prints `128 0 line 1 ok`, `next never`, .. and for the last line
      `128 5 port 1 90 3C 40`, `128 5 line 5 ok` and `next never`";

/// The program's subcommands with their words.
pub(crate) fn command<'a>(alloc: Global) -> Result<Command<'a>, AllocError> {
    let program = Command::new(alloc, "midiseq")
        .about("A MIDI sequencer and patchbay: clients share it, and none disturbs another")
        .version(VERSION)
        .after_help(EXAMPLES);
    let program = with(program, run(alloc))?;
    let program = with(program, record(alloc))?;
    let program = with(program, circle(alloc))?;
    let program = with(program, why(alloc))?;
    let program = with(program, live(alloc))?;
    let program = with(program, thru(alloc))?;
    let program = with(program, wire(alloc))?;
    let program = with(program, dump(alloc))?;
    let program = with(program, make(alloc))?;
    with(program, check(alloc))
}

/// Adds a subcommand.
// Whoever adds several has nothing to drop where one finds no memory.
fn with<'a>(
    program: Command<'a>,
    subcommand: Result<Command<'a>, AllocError>,
) -> Result<Command<'a>, AllocError> {
    program.subcommand(subcommand?)
}

fn run<'a>(alloc: Global) -> Result<Command<'a>, AllocError> {
    Command::new(alloc, "run")
        .about("Runs the scripts of clients, and prints what each client hears")
        .after_help(RUN_HELP)
        .arg(until(alloc)?)?
        .arg(time(alloc)?)?
        .arg(to_end(alloc)?)?
        .arg(dir(alloc))?
        .arg(lenient_files(alloc)?)?
        .arg(list(alloc))?
        .arg(format(alloc))?
        .arg(logs(alloc)?)?
        .arg(append(alloc)?)?
        .arg(explain(alloc))?
        .arg(strict(alloc))?
        .arg(quiet(alloc))?
        .arg(scripts(alloc))
}

fn record<'a>(alloc: Global) -> Result<Command<'a>, AllocError> {
    Command::new(alloc, "record")
        .about("Runs the scripts of clients, and writes what comes to ports to a file")
        .after_help(RECORD_HELP)
        .arg(until(alloc)?)?
        .arg(time(alloc)?)?
        .arg(to_end(alloc)?)?
        .arg(dir(alloc))?
        .arg(lenient_files(alloc)?)?
        .arg(explain(alloc))?
        .arg(strict(alloc))?
        .arg(raw(alloc)?)?
        .arg(port(alloc)?)?
        .arg(ports(alloc)?)?
        .arg(ppq(alloc)?)?
        .arg(bpm(alloc)?)?
        .arg(like(alloc)?)?
        .arg(out(alloc))?
        .arg(scripts(alloc))
}

fn circle<'a>(alloc: Global) -> Result<Command<'a>, AllocError> {
    Command::new(alloc, "circle")
        .about("Says from scripts whether strangers can change what a client hears")
        .after_help(CIRCLE_HELP)
        .arg(until_or_always(alloc))?
        .arg(time(alloc)?)?
        .arg(to_end(alloc)?)?
        .arg(dir(alloc))?
        .arg(lenient_files(alloc)?)?
        .arg(owner(alloc))?
        .arg(session(alloc)?)?
        .arg(scripts(alloc))
}

fn why<'a>(alloc: Global) -> Result<Command<'a>, AllocError> {
    Command::new(alloc, "why")
        .about("Says why a message did not come, or why a line of a script did nothing")
        .after_help(WHY_HELP)
        .arg(from(alloc)?)?
        .arg(at(alloc)?)?
        .arg(message(alloc)?)?
        .arg(log(alloc)?)?
        .arg(dir(alloc))?
        .arg(lenient_files(alloc)?)?
        .arg(scripts(alloc))
}

fn live<'a>(alloc: Global) -> Result<Command<'a>, AllocError> {
    Command::new(alloc, "live")
        .about("Answers what clients say while it runs, line by line")
        .after_help(LIVE_HELP)
        .arg(dir(alloc))?
        .arg(lenient_files(alloc)?)
}

fn until<'a>(alloc: Global) -> Result<Arg<'a>, AllocError> {
    Arg::new(alloc, "until")
        .long("until")
        .value_name("N")
        .allow_negative_numbers(true)
        .help("the moment in nanoseconds at which the run ends")
        .required_unless_present("for")?
        .required_unless_present("to-end")
}

/// The end of a session by its length.
fn time<'a>(alloc: Global) -> Result<Arg<'a>, AllocError> {
    Arg::new(alloc, "for")
        .long("for")
        .value_name("TIME")
        .help("or how long it goes on, as 1m30s or 1500ms")
        .conflicts_with("until")?
        .conflicts_with("to-end")
}

fn to_end<'a>(alloc: Global) -> Result<Arg<'a>, AllocError> {
    Arg::new(alloc, "to-end")
        .long("to-end")
        .action(ArgAction::SetTrue)
        .help("or until nothing is left to send")
        .conflicts_with("until")
}

/// The end of a session that may have none, which is the greatest moment.
fn until_or_always<'a>(alloc: Global) -> Arg<'a> {
    Arg::new(alloc, "until")
        .long("until")
        .default_value("18446744073709551615")
        .hide_default_value(true)
        .value_name("N")
        .allow_negative_numbers(true)
        .help("the moment at which the run ends; else it has no end")
}

fn dir<'a>(alloc: Global) -> Arg<'a> {
    Arg::new(alloc, "dir")
        .long("dir")
        .value_name("D")
        .help("the folder whose MIDI files (.mid) may be played")
}

fn lenient_files<'a>(alloc: Global) -> Result<Arg<'a>, AllocError> {
    Arg::new(alloc, "lenient")
        .long("lenient")
        .action(ArgAction::SetTrue)
        .help("also take files that most readers forgive, and say what it was")
        .requires_arg("dir")
}

fn list<'a>(alloc: Global) -> Arg<'a> {
    Arg::new(alloc, "list")
        .long("list")
        .action(ArgAction::SetTrue)
        .help("print the listing at the end, too")
}

fn format<'a>(alloc: Global) -> Arg<'a> {
    Arg::new(alloc, "format")
        .long("format")
        .value_name("FORM")
        .help("print the logs as text, json (a line each) or csv")
}

/// The folder of the logs. What is explained is known only when the run is over, and needs all of it.
fn logs<'a>(alloc: Global) -> Result<Arg<'a>, AllocError> {
    Arg::new(alloc, "logs")
        .long("logs")
        .value_name("DIR")
        .help("write each log to DIR while it runs, as DIR/128.log")
        .conflicts_with("explain")?
        .conflicts_with("strict")?
        .conflicts_with("format")
}

fn append<'a>(alloc: Global) -> Result<Arg<'a>, AllocError> {
    Arg::new(alloc, "append")
        .long("append")
        .action(ArgAction::SetTrue)
        .help("with --logs: behind what the files have already")
        .requires_arg("logs")
}

fn explain<'a>(alloc: Global) -> Arg<'a> {
    Arg::new(alloc, "explain")
        .long("explain")
        .action(ArgAction::SetTrue)
        .help("tell which lines did nothing, and what was lost")
}

fn strict<'a>(alloc: Global) -> Arg<'a> {
    Arg::new(alloc, "strict")
        .long("strict")
        .action(ArgAction::SetTrue)
        .help("the same, with status 3 where there is any")
}

fn quiet<'a>(alloc: Global) -> Arg<'a> {
    Arg::new(alloc, "quiet")
        .short('q')
        .long("quiet")
        .action(ArgAction::SetTrue)
        .help("show no progress, as a terminal has it else")
}

fn raw<'a>(alloc: Global) -> Result<Arg<'a>, AllocError> {
    Arg::new(alloc, "raw")
        .long("raw")
        .action(ArgAction::SetTrue)
        .help("write one MIDI stream, and not a MIDI file")
        .conflicts_with("ports")
}

fn port<'a>(alloc: Global) -> Result<Arg<'a>, AllocError> {
    Arg::new(alloc, "port")
        .long("port")
        .value_name("CLIENT:N")
        .help("the port whose messages are recorded, as 129:0")
        .required_unless_present("ports")
}

fn ports<'a>(alloc: Global) -> Result<Arg<'a>, AllocError> {
    Arg::new(alloc, "ports")
        .long("ports")
        .value_name("LIST")
        .help("or several ports, a track for each, as 129:0,130:1")
        .conflicts_with("port")
}

/// The ticks per quarter note of a file of several ports.
fn ppq<'a>(alloc: Global) -> Result<Arg<'a>, AllocError> {
    Arg::new(alloc, "ppq")
        .long("ppq")
        .value_name("N")
        .allow_negative_numbers(true)
        .help("with --ports: ticks per quarter note, else 480")
        .requires_arg("ports")?
        .conflicts_with("port")
}

/// The tempo of a file of several ports.
fn bpm<'a>(alloc: Global) -> Result<Arg<'a>, AllocError> {
    Arg::new(alloc, "bpm")
        .long("bpm")
        .value_name("N")
        .allow_negative_numbers(true)
        .help("with --ports: quarter notes a minute, else 120")
        .requires_arg("ports")?
        .conflicts_with("port")
}

/// A file whose ticks and tempos a file of several ports has.
// What is in conflict with --port excuses what is required, so that --port has to be named here, too.
fn like<'a>(alloc: Global) -> Result<Arg<'a>, AllocError> {
    Arg::new(alloc, "like")
        .long("like")
        .value_name("SONG")
        .help("with --ports: ticks and tempos of this MIDI file")
        .requires_arg("ports")?
        .conflicts_with("port")?
        .conflicts_with("ppq")?
        .conflicts_with("bpm")
}

fn from<'a>(alloc: Global) -> Result<Arg<'a>, AllocError> {
    Arg::new(alloc, "from")
        .long("from")
        .value_name("CLIENT:pN")
        .help("the port that the message is sent from, as 128:p0")
        .required_unless_present("log")?
        .requires_arg("until")?
        .requires_arg("message")
}

/// The moment that is asked about: the session ends there.
fn at<'a>(alloc: Global) -> Result<Arg<'a>, AllocError> {
    Arg::new(alloc, "until")
        .long("at")
        .default_value("18446744073709551615")
        .hide_default_value(true)
        .value_name("N")
        .allow_negative_numbers(true)
        .help("the moment in nanoseconds")
        .visible_alias("until")
}

fn message<'a>(alloc: Global) -> Result<Arg<'a>, AllocError> {
    Arg::new(alloc, "message")
        .long("message")
        .value_name("HEX")
        .help("the message, as \"90 24 64\"")
        .requires_arg("from")
}

fn log<'a>(alloc: Global) -> Result<Arg<'a>, AllocError> {
    Arg::new(alloc, "log")
        .long("log")
        .value_name("PATH:LINE")
        .help("or a line of a script, as synth.txt:4")
        .conflicts_with("from")?
        .conflicts_with("message")
}

fn owner<'a>(alloc: Global) -> Arg<'a> {
    Arg::new(alloc, "owner")
        .long("owner")
        .value_name("CLIENT")
        .help("whose circle, 128 to 191; without it a line for each")
}

fn session<'a>(alloc: Global) -> Result<Arg<'a>, AllocError> {
    Arg::new(alloc, "session")
        .long("session")
        .action(ArgAction::SetTrue)
        .help("also whether it is closed in the run of these scripts")
        .requires_arg("owner")
}

fn out<'a>(alloc: Global) -> Arg<'a> {
    Arg::new(alloc, "out")
        .long("out")
        .required(true)
        .value_name("FILE")
        .help("the file that is written")
}

fn scripts<'a>(alloc: Global) -> Arg<'a> {
    Arg::new(alloc, "CLIENT=PATH")
        .action(ArgAction::Append)
        .num_args(0..)
        .help("a client, 128 to 191, and the file of its script")
}

fn thru<'a>(alloc: Global) -> Result<Command<'a>, AllocError> {
    let file = Arg::new(alloc, "FILE").required(true).help(
        "raw MIDI bytes (not a .mid file), or - for standard input",
    );
    Command::new(alloc, "thru")
        .about("Passes MIDI bytes from one client to another, and prints what arrives")
        .after_help(THRU_HELP)
        .arg(file)
}

fn wire<'a>(alloc: Global) -> Result<Command<'a>, AllocError> {
    let file = Arg::new(alloc, "FILE").required(true).help(
        "raw MIDI bytes (not a .mid file), or - for standard input",
    );
    Command::new(alloc, "wire")
        .about("Reads MIDI bytes, prints each message, and writes the stream anew")
        .after_help(WIRE_HELP)
        .arg(file)
}

fn all<'a>(alloc: Global) -> Arg<'a> {
    Arg::new(alloc, "all")
        .long("all")
        .action(ArgAction::SetTrue)
        .help("every event, track by track, with the meta events by name")
}

/// The place of each line in the file.
// A file that is mended has other places than the one that was read.
fn at_place<'a>(alloc: Global) -> Result<Arg<'a>, AllocError> {
    Arg::new(alloc, "at")
        .long("at")
        .action(ArgAction::SetTrue)
        .help("with --all: each line behind the byte where it stands")
        .requires_arg("all")?
        .conflicts_with("lenient")
}

fn lenient<'a>(alloc: Global) -> Arg<'a> {
    Arg::new(alloc, "lenient")
        .long("lenient")
        .action(ArgAction::SetTrue)
        .help("also take what most readers forgive, and say what it was")
}

fn dump<'a>(alloc: Global) -> Result<Command<'a>, AllocError> {
    let file = Arg::new(alloc, "FILE")
        .required(true)
        .help("a Standard MIDI File (.mid), or - for standard input");
    Command::new(alloc, "dump")
        .about("Reads a Standard MIDI File, and prints its tempos and its messages, or all of it")
        .after_help(DUMP_HELP)
        .arg(all(alloc))?
        .arg(at_place(alloc)?)?
        .arg(lenient(alloc))?
        .arg(file)
}

fn make<'a>(alloc: Global) -> Result<Command<'a>, AllocError> {
    let text = Arg::new(alloc, "TEXT")
        .required(true)
        .help("the text of a file, or - for standard input");
    Command::new(alloc, "make")
        .about("Makes a Standard MIDI File of the text that dump --all prints")
        .after_help(MAKE_HELP)
        .arg(out(alloc))?
        .arg(text)
}

/// Tells of the files alone that are not whole.
fn quiet_check<'a>(alloc: Global) -> Arg<'a> {
    Arg::new(alloc, "quiet")
        .short('q')
        .long("quiet")
        .action(ArgAction::SetTrue)
        .help("print only the files that are not ok")
}

fn check<'a>(alloc: Global) -> Result<Command<'a>, AllocError> {
    let files = Arg::new(alloc, "FILE")
        .required(true)
        .action(ArgAction::Append)
        .num_args(1..)
        .help("a Standard MIDI File (.mid), or a folder of them");
    Command::new(alloc, "check")
        .about("Says of each Standard MIDI File whether it is damaged, and where")
        .after_help(CHECK_HELP)
        .arg(quiet_check(alloc))?
        .arg(lenient(alloc))?
        .arg(files)
}
