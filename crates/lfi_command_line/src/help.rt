//! What `--help` says of the commands and of their answers. No line is wider than 100 columns.

/// Of the program: the exit statuses.
pub const PROGRAM: &str = "Exit status:
  0  check: the code of each file is lawful. load, serve: each module is complete or unused, and no
     connection has a fault. run: the run ended with a status, at BRK, or when all steps were used.
     disassemble, pack, unpack: all was written. info: each file is code, or a stream or an image
     without a fault.
  1  It isn't so: the printed lines say why.
  2  A usage error: a message on the standard error says which.
  3  An I/O error, or no memory: a line on the standard error says which, and a second one why,
     where the system tells.

`lfiload COMMAND --help` has each line that a command prints, and an example. Wherever a file is
read, `-` is the standard input.

Any command may print one of these as well, on the standard error:
  lfiload: - can be named once           The standard input is named twice (status 2).
  lfiload: cannot read the command line  A word of it is no text in UTF-8 (status 2).
  lfiload: cannot write standard output  What it prints can't be written (status 3).

Example: lfiload check --explain module.code";

/// Of a file with code.
pub const FILE: &str = "plain code words, the lowest byte first";

/// Of several.
pub const FILES: &str = "one file or more, each with plain code words, the lowest byte first";

/// Of several of any kind.
pub const FILES_OF_ANY_KIND: &str = "one file or more: code, streams, images";

/// Of `--explain`.
pub const EXPLAIN: &str =
    "also say what the word at fault does, what its rule asks, and how it is mended";

/// Of `--explain`, where modules are loaded.
pub const EXPLAIN_MODULES: &str =
    "also explain each refused module's first fault, and tell of connections";

/// Of `--all`.
pub const ALL: &str = "say so of each word that breaks a rule, and how many they are";

/// Of `disassemble --check`.
pub const MARKS: &str = "also judge the code, and mark each word that breaks a rule";

/// Of `--verifiers`.
pub const VERIFIERS: &str = "how many verifiers judge pages, 1 to 8; 2 by default";

/// Of `--out`.
pub const OUT: &str = "the folder for the images of complete modules; it has to exist";

/// Of the streams.
pub const STREAM: &str = "1 to 8 files, each with one connection's bytes";

/// Of `--socket`.
pub const SOCKET: &str = "the path of the Unix socket; it is removed after the last connection";

/// Of `--connections`.
pub const CONNECTIONS: &str = "how many connections are taken, 1 to 8";

/// Of `--seconds`.
pub const SECONDS: &str = "for how many seconds it serves at most, 1 to 86400; no limit by default";

/// Of `--steps`.
pub const STEPS: &str = "how many steps it may take, 0 to 1000000000";

/// Of the image.
pub const IMAGE: &str = "the file of an image, as load --out writes it";

/// Of `--module`.
pub const MODULE: &str = "the number of the first file's module, 0 to 15; 0 by default";

/// Of `--entry`.
pub const ENTRY: &str = "the word at which each module is entered; 0 by default";

/// Of `--profile`.
pub const PROFILE: &str = "the profile that the code goes by, 1 or 2; 1 by default";

/// Of `--pages`.
pub const PAGES: &str = "small or large, of 4096 or 16384 bytes; small by default";

/// Of `--format`.
pub const FORMAT: &str = "text, or json for one JSON object; text by default";

/// Of the files with code.
pub const CODE: &str = "1 to 16 files, each with the plain code words of one module";

/// Of `check`: its lines.
pub const CHECK: &str = "Prints one line for each file:
  lawful, N words  The N words are a lawful module (status 0).
  word K rule R    Word K, counted from 0, is the first that breaks a rule, and R is the least rule
                   that it breaks (status 1).
  bad length       The file is empty, no multiple of 4 bytes, or above 16,777,216 bytes (status 1).
Where several files are named, the path of each and a colon stand before its line. The status is
the worst of theirs, the largest number. A file that can't be read holds up no other one.

With --explain, these lines follow `word K rule R`:
  0xADDRESS  WORD  TEXT  The word: its address where the module lies in slot 0, its value in
                         hexadecimal digits, its assembly text. Where the rule is on what follows
                         a word, the line of the word before stands above it.
  A sentence             What the rule asks, and what the word does.
  mend: TEXT             What to write instead: `in its place`, and the instructions in lines below,
                         which may overwrite w22 and x18, and of a ret x30; or a sentence, or why
                         there is none.
With --all, all of these lines for each word that breaks a rule, in order, and then:
  words refused: N       How many they are.
  words with a mend: M   Of how many of them there are instructions to write instead.
With either of the two a line tells of a file that isn't lawful and begins as another kind of file:
  file: TEXT             What it is, an ELF file, an image or a stream, and what to do with it.

With --format json it prints {\"files\":[..]} in place of these lines, with an object for each file:
  \"path\", \"profile\"      The file, and the profile, 1 or 2.
  \"verdict\"              \"lawful\" with \"words\"; \"refused\" with \"word\" and \"rule\"; \"bad length\" with
                         \"bytes\", 16777217 where there are as many or more.
  \"explanation\", \"mend\"  With --explain: the text of the fault; the instructions in the place of the
                         word, or null.
  \"refused\"              With --all: an object for each word that breaks a rule, with \"word\",
                         \"rule\", \"explanation\" and \"mend\"; \"words_refused\" and \"words_with_a_mend\"
                         follow.
  \"file\"                 Of one that isn't lawful: the text of the line `file:`, if there is one.
  \"error\"                Of one that can't be read, beside \"path\": the text behind `lfiload: `.

On the standard error:
  lfiload: bad length PATH   And a second line: which length it is, and which are asked for.
  lfiload: cannot read PATH  The file can't be read (status 3).
  lfiload: no memory         There was no memory for it (status 3).
  lfiload: --format is text or json
                             F is another word (status 2).

Example: lfiload check --explain module.code";

/// Of `load`: its lines.
pub const LOAD: &str =
    "Prints a line for each module that was opened, one for a connection's fault, and the strays:
  module M: complete, N words         All its words came, and they are lawful.
  module M: refused, word K rule R    Its first fault.
  module M: incomplete, P of Q pages  It was closed when only P pages had come.
  module M: lost, fault F             Its connection came to fault F while it was open.
  module M: page fault, index I       Page I wasn't the one due, or hadn't its length.
  module M: no memory                 There was no memory for it.
  connection C: fault F               Its stream has fault F: 1 to 7 a header, 8 no memory, 9 its
                                      end, 10 a read that failed.
  strays N                            N messages belonged to no open module of their connection.
Each stream is a connection, numbered from 0 in the order in which they are named. Where several
open one module, it is loaded from the one whose Open is read first, which may be another in each
run; what the others send for it are strays. --explain tells which one it was, and faults in words.
The status is 0 where each module is complete and no connection has a fault, 3 where a read failed,
else 1.

With --explain, these lines follow for each module M that was refused:
  module M: word K rule R   Its first fault.
  0xADDRESS  WORD  TEXT     The word: its address in the module's slot, its value in hexadecimal
                            digits, its assembly text. Where the rule is on what follows a word,
                            the line of the word before stands above it.
  A sentence                What the rule asks, and what the word does.
  mend: TEXT                What to write instead: `in its place`, and the instructions in lines
                            below, which may overwrite w22 and x18, and of a ret x30; or a sentence,
                            or why there is none.
then one for each module M that was opened:
  module M: from connection C
                            The connection that opened it first, from which it is loaded.
and then for each connection C with a fault or with strays:
  connection C: TEXT        Its fault in words.
  message at byte B         Where the message begins that has the fault or isn't whole, in the bytes
                            of the connection, counted from 0; and the path of a file.
  file: TEXT                Where its first header has the fault: what begins so, an ELF file, an
                            image or no stream, and what to do with it.
  connection C: strays N    How many of the strays are its own.
Of a page fault or a stray no byte is told: lfiload info STREAM lists each message with its byte.

With --out DIR, the image of each complete module M is written to DIR/module-MM.img, M in two
digits, in place of what stands there.

With --format json images are written first, and then it prints one object in place of these lines,
{\"modules\":[..],\"connections\":[..],\"strays\":N,\"images\":[..]}. Each of the 16 modules has:
  \"module\", \"outcome\"    Its number; and \"unused\", \"complete\" with \"words\", \"refused\" with \"word\"
                         and \"rule\", \"incomplete\" with \"pages\" and \"of\", \"lost\" with \"fault\", \"page
                         fault\" with \"index\", or \"no memory\".
  \"explanation\", \"mend\"  With --explain, of a refused one: as check prints them.
  \"connection\"           The one from which it is loaded, if it was opened.
Each connection has:
  \"connection\", \"path\"   Its number and its file.
  \"strays\"               Its own.
  \"fault\", \"reason\"      Its fault, if it has one, by number and in words;
  \"byte\", \"file\"         where the message begins; the text of the line `file:`, if there is one;
  \"read_error\"           and why the read failed, if the system tells.
Each image that is to be written has:
  \"path\", \"error\"        Its file; and if it can't be written, the text behind `lfiload: `.

On the standard error:
  module M refused            A connection's thread has seen that module M is refused; the report
                              tells why.
  lfiload: cannot read PATH   The first stream that can't be opened; nothing is loaded (status 3).
  lfiload: cannot write PATH  An image can't be written (status 3).
  lfiload: connection C: cannot read
                              A read of stream C failed (status 3).
  lfiload: at most 8 streams  More were named (status 2).
  lfiload: --out names no folder
                              DIR is an empty text (status 2).
  lfiload: --format is text or json
                              F is another word (status 2).
  lfiload: no memory          There was no memory to load them or for the object, or a thread could
                              not be started (status 3).

Example: lfiload load --verifiers 4 --out images a.stream b.stream";

/// Of `serve`: its lines.
pub const SERVE: &str =
    "Takes C connections, numbers them from 0 as they come, and reads each by a thread of its own.
Clients can connect once the path is there.
Prints the report once all of them have ended, as load does, and writes images as load does. The
report waits for each connection, also for one that sends nothing. The status is load's; it is 3 as
well where a connection was not taken: that one has no messages.

With --seconds N it waits for at most N seconds. A connection that has not come by then has no
messages (status 3), and one that is open ends where it is, as if its client had closed it (status 1
or 3, also where its modules are complete).

With --format json it prints the object of load. In place of \"path\" each connection has:
  \"client\"               \"heard\", \"cut off\" or \"not come\" when the time was over, or \"not taken\";
  \"client_error\"         and why it was not taken, if the system tells.

The path is removed after the last connection, and when the time is over. A signal ends the program
at once and leaves the path; serve can't listen there again before it is removed.

On the standard error:
  module M refused            A connection's thread has seen that module M is refused; the report
                              tells why.
  lfiload: cannot listen      It can't listen at the path; the second line names it (status 3).
  lfiload: connection C: cannot read
                              It was not taken, or a read of it failed (status 3).
  lfiload: time is over: connection C had not come
                              No client connected in time (status 3).
  lfiload: time is over: connection C had not ended
                              It was cut off (status 1 or 3).
  lfiload: cannot write PATH  An image can't be written (status 3).
  lfiload: --socket names no path
                              P is an empty text (status 2).
  lfiload: --out names no folder
                              DIR is an empty text (status 2).
  lfiload: --format is text or json
                              F is another word (status 2).
  lfiload: no memory          There was no memory, or a thread could not be started (status 3).

Example: lfiload serve --socket /tmp/lfi.sock --connections 2 --seconds 60 --out images";

/// Of `run`: its lines.
pub const RUN: &str =
    "The code starts at its entry with the base of its slot in x18, x21, x23, x24 and x30, the end of
its slot in sp, and 0 in all other registers. Calls of the runtime: entry 0 ends the run with the
low byte of x0 as its status; entry 1 writes the low byte of x0 to the standard output, at once;
every other sets all bits of x0.

Prints one line on the standard error, and a second one where it says so:
  halt 1 after N steps             All steps were used (status 0).
  halt 2 at ADDRESS after N steps  The byte at ADDRESS may not be accessed so (status 1).
  halt 3 at ADDRESS after N steps  No word of the code begins at pc, which is ADDRESS (status 1).
  halt 4 at ADDRESS after N steps  BRK, at ADDRESS (status 0).
  halt 5 status S after N steps    The code ended the run with S in a further step; 255 where a byte
                                   that it prints can't be written (status 0).
  halt 6 after N steps             The runtime answered registers that aren't lawful (status 1).
  halt 7 after N steps             There was no memory for a byte that is written (status 3).
  image refused, fault F           There is no image: 1 it doesn't begin with LFI1, 2 its profile,
                                   3 its counts, 4 its base, 5 it is cut, 6 bytes follow it (status
                                   1), 8 no memory, 9 a read failed (status 3). The second line has
                                   the fault in words, after two spaces.
  image refused, fault 7, word K rule R  Its code breaks a rule (status 1).
  lfiload: cannot read PATH        The file can't be opened (status 3).
  lfiload: no memory               There was no memory for the machine (status 3).
  lfiload: --format is text or json
                                   F is another word (status 2).

With --format json an object stands on the standard error in place of the line:
  \"halt\", \"steps\"    The numbers of the halt and of steps; and \"address\", a text, or \"status\".
  \"fault\", \"reason\"  There is no image; \"word\" and \"rule\" in place of \"reason\" for fault 7.

Example: lfiload run module-00.img --steps 1000";

/// Of `disassemble`: its lines.
pub const DISASSEMBLE: &str = "Prints a line for each word, in order (status 0):
  PLACE  0xADDRESS  WORD  TEXT  Its place, counted from 0; its address where the module lies in
                                slot 0; its value in hexadecimal digits; its assembly text.
After the text may stand:
  -> word K             Where a direct branch goes.
  -> outside, word K    The same; the code has no word K.
  ; opens: next is X    Rule 10 asks this of the next word.
  ; opens: one of the next N is X
                        Rule 10 asks this of one of the next N words.
  ; rule R              With --check: the word breaks rule R, and none with a smaller number.
Without --check the code isn't judged; with it the status is the same. A word that no instruction
of the profile spells stands as `.inst`. Where the file is empty, no multiple of 4 bytes, or above
16,777,216 bytes, one line:
  bad length            It is no code (status 1).

On the standard error:
  lfiload: bad length PATH   And a second line: which length it is, and which are asked for.
  lfiload: PATH: KIND; TEXT  The file begins as an ELF file, an image or a stream. Its words are
                             listed all the same; TEXT says what to do with such a file.
  lfiload: cannot read PATH  The file can't be read (status 3).
  lfiload: no memory         There was no memory for it (status 3).

Example: lfiload disassemble module.code";

/// Of `pack`: what it writes, and its lines.
pub const PACK: &str =
    "Writes a stream to the standard output, as load and serve read it: of each file an Open, its pages
and a Close. The first file is module M, the next M + 1, and so on, up to 15. The code isn't judged:
its receiver does that (status 0). Large pages are of profile 2 alone.

On the standard error:
  lfiload: bad length PATH       The file is empty, no multiple of 4 bytes, or above 16,777,216
                                 bytes (status 1). A second line says which length it is.
  lfiload: no word WORD in PATH  The file has no such word, at which it could be entered (status 1).
  lfiload: more files than modules, of which the last is 15
                                 The first file would be module M, and so on (status 2).
  lfiload: pages are small, or large with --profile 2
                                 SIZE is another word, or large and the profile is 1 (status 2).
  lfiload: cannot read PATH      The first file that can't be read (status 3).
  lfiload: no memory             There was no memory for the files (status 3).
  lfiload: PATH: KIND; TEXT      The file begins as an ELF file, an image or a stream. It is packed
                                 all the same; TEXT says what to do with such a file.
All files are read first: after each of these lines but the last nothing was written.

Example: lfiload pack --module 2 --entry 16 first.code second.code > both.stream";

/// Of `unpack`: what it writes, and its lines.
pub const UNPACK: &str =
    "Writes the code of an image to the standard output, so that it can be disassembled: the 4 bytes of
each of its words, and nothing else (status 0). The image is read as `run` reads it, and its code
judged anew.

On the standard error:
  image refused, fault F           There is no image, as `run` tells it. Nothing was written (status
                                   1, or 3 for the faults 8 and 9).
  image refused, fault 7, word K rule R  Its code breaks a rule (status 1).
  lfiload: cannot read PATH        The file can't be opened (status 3).
  lfiload: no memory               There was no memory for it (status 3).

Example: lfiload unpack module-00.img > module.code";

/// Of `info`: its lines.
pub const INFO: &str = "Prints for each file what it is, and what it holds:
  code, N words           Plain code words; check judges them.
  image                   Its slot, base, words, entry and profile, a line each, and `lawful`.
  image refused, fault F  As run tells it (status 1).
  stream                  A line for each message follows, by the byte at which it begins:
    byte B: module M open, N words, entry W, profile P, small pages
    byte B: module M open, N words, entry W, profile P, large pages
    byte B: module M page I, L bytes
    byte B: module M close
    byte B: fault F, TEXT  The stream's fault (status 1).
  an ELF file; TEXT       And how its code is taken out (status 1).
  no code, N bytes        None of these (status 1).
  too long, more than 269222272 bytes
                          It is longer than a stream of 16 whole modules of the most words; no more
                          of it is read (status 1).
Where several files are named, the path of each and a colon stand before its first line, and the
status is the worst of theirs. Each is read whole, unless it is too long.

On the standard error:
  lfiload: cannot read PATH  The file can't be read (status 3).
  lfiload: no memory         There was no memory for it (status 3).

Example: lfiload info module-00.img both.stream";
