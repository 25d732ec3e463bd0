// The texts that the program has for its version and for help.

/// The name and the version of the program.
pub const VERSION: &str = "nameless 0.2.0";

/// What the program prints where help is asked for.
pub const HELP: &str = "\
nameless: a flash store with a journalling file system, in an image file

Usage:
  nameless IMAGE format B P      makes a volume of B blocks of P pages, and the file where it is missing;
                                 whatever the file held is gone
  nameless IMAGE run             reads a script from standard input, runs it, and prints an answer for each line
  nameless IMAGE tree            prints every path
  nameless IMAGE report          prints what the volume takes of what there is
  nameless IMAGE map             prints what is found on each page
  nameless IMAGE map svg         prints that as a picture, which a browser shows
  nameless IMAGE get PATH        prints the bytes of a file
  nameless IMAGE put PATH        makes a file hold the bytes of standard input, whatever it held, and prints
                                 how many they are
  nameless IMAGE check           prints what is at fault
  nameless IMAGE soak SEED N W   runs a drawn script of N lines for each of W workers, and prints a summary
  nameless --help                prints this text
  nameless --version             prints the version

A page holds 4096 bytes. B is from 32 to 4096, P from 32 to 256, and B times P at most 262144.
N is from 1 to 20000, W from 1 to 8, SEED below 2^63.

A script has one call a line: a worker from 0 to 7 and a command, with one space between words. Workers run
beside each other, and each runs its lines in order; a line `barrier` has the later lines wait for all before it.
  mkdir PATH        rmdir PATH        create PATH       unlink PATH       rename PATH PATH
  write PATH OFFSET DATA              fill PATH OFFSET LENGTH BYTE        truncate PATH SIZE
  read PATH OFFSET LENGTH             stat PATH         list PATH         sync              clean
DATA is two hexadecimal digits for each byte, or - for none; BYTE is two such digits.

Status:
  0  all was done
  2  words: the command line is none of these, or a number is not in its range;
     script LINE COLUMN WHY: the script is refused;
     ENOENT, EISDIR and the like, on standard error: PATH is refused, as a script's `read` would be, or
     what is to be put there, as a script's `create`, `write` and `rename` would be
  3  source fault: standard input could not be read
  4  standard output could not be written
  5  medium fault: the image file could not be opened, read or written; or an answer is a fault,
     or the volume has no write sequence number left;
     medium in use: another program has the image file
  6  memory: there is not enough memory
  7  blank: the file holds no volume; damaged PLACE WHAT: what it holds is none that can be opened;
     `map` goes on behind that line
  8  check found what it printed

Example:
  nameless disk.img format 32 32
  printf '0 mkdir /d\\n0 create /d/a\\n0 write /d/a 0 68656c6c6f\\n0 sync\\n0 list /d\\n' | nameless disk.img run
  nameless disk.img tree";
