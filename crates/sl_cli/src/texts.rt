//! What the program says of itself.

/// What `--help` puts out.
pub const HELP: &str = "\
usage: sanlock COMMAND

  replay                   run the schedule on standard input, print its report
  draw [FROM TO]           run the schedule on standard input, print its picture
                           as SVG; with FROM and TO what lies between these two
                           lines is drawn
  gen SEED HOSTS EVENTS [2]
                           run the schedule of a seed, print its words and the
                           last line of its report; with 2 each host's block has
                           a pair of sectors
  schedule SEED HOSTS EVENTS [2]
                           print a schedule that tells a story, drawn from a
                           seed: hosts that mostly work in time, and now and
                           then hang, crash, are reset and come back
  live FOLDER [--anew] [--keep-going] [--events]
                           run the live script on standard input, with disks in
                           files below FOLDER and child programs; it prints
                           replies as they come, and waits for the children
                           that it starts; with --anew disks that are there are
                           made anew; with --keep-going a line that is refused
                           is told and ends nothing, as from a terminal; with
                           --events the exits, signals and ends of children and
                           the connections that run out are told as well
  live FOLDER --machine M [--watchdog PATH] [--no-sync] [--keep-going]
              [--events]
                           run machine M alone, beside other processes that run
                           the others, on disks that are there; PATH is a
                           watchdog device; without --no-sync a write is
                           answered once the storage has it
  direct init [-t TIMES] -s LOCKSPACE -n N [-g GEOMETRY]
                           write the sectors of a lockspace for N hosts; with
                           -t, right behind init, a label as well, which
                           live --machine wants
  direct init -r RESOURCE -n N [-v 2] [-g GEOMETRY]
                           write the sectors of a resource for N hosts; with
                           -v 2 each host's block has a pair of sectors
  direct upgrade -r RESOURCE -n N [-g GEOMETRY]
                           give each host's block of a resource for N hosts a
                           pair of sectors
  direct read_leader -r RESOURCE [-g GEOMETRY]
                           print who holds a resource
  direct dump -d PATH:OFFSET:SIZE [-g GEOMETRY]
                           print each sector of a part of a file
  --help, -h               print this
  --version, -V            print the version

The language of schedules, reports and live scripts is in docs/LANGUAGE.md.
LOCKSPACE is NAME:0:PATH:OFFSET, RESOURCE is LOCKSPACE_NAME:NAME:PATH:OFFSET,
with OFFSET a multiple of an area's size. In a dump OFFSET and SIZE are
multiples of a sector's, SIZE at most 1048576. Offsets are below 10^12.
TIMES is IO:FIRE:LAND:RHO:GRACE, as in the line time of all hosts of the area.
GEOMETRY is SECTOR:MIB, the bytes of a sector and the mebibytes of an area:
512:1, which holds without -g, for N of 1 to 2000, 4096:1 for at most 250,
4096:2 for 500, 4096:4 for 1000, 4096:8 for 2000, and half of them where blocks
have pairs. Options come in any order.
SEED is below 2^64, HOSTS 1 to 16, EVENTS at most 1000000.

Status: 0 done; 1 a line was refused; 2 bad words; 3 a read and 4 a write
failed; 5 no memory; 6 a read or a write of an area failed, or areas that are
there are not those of the header; 7 not the leader, or for an upgrade a
torn block; 8 a live machine's threads and its history differ.
";

/// What `--version` puts out.
pub const VERSION: &str = "sanlock 0.1.0\n";
