//! The texts of the pages.

/// All commands.
pub const OVERVIEW: &[u8] =
    b"Predict which drivers and services Windows NT starts, from its SYSTEM hive.

Usage: ntboot COMMAND [OPTIONS]

Predict
  run      play a script of boots, failures, edits and power cuts, and report it
  safe     what a boot in safe mode would start
  control  start and stop services after a boot
  why      why an entry was started or not, and where it stands
  whatif   what is lost when an entry fails or is disabled
  graph    the needs and the order of a boot, for Graphviz
Look
  show     print the hive as text
  key      print one key readably
  find     where a text, or bytes, stand in the hive
  services every driver and service of a control set, one a line
  check    everything suspicious about the services of a control set
  devices  the drivers Plug and Play loads for each device, and what prevents it
  diff     compare two control sets or hives, and the boots they give
  export   write a key as registry text
Repair
  import   apply a registry text to a hive
  twin     load a hive kept as two copies, repair it, set its Default set
  salvage  read what can be read of a damaged hive, and save a sound one
  replay   apply the transaction logs that Windows itself writes
Teach
  make     make a hive of N services and boot it
  sweep    cut the power at each write and sync of one event

Help: 'ntboot help NAME', NAME a command or exits, script or report. The
version: 'ntboot version'. Any command: --json (one JSON object a line), -v,
--verbose (say on standard error why a command was refused), -h, --help.
Options may come in any order, as --name VALUE or --name=VALUE. Files are
changed only where an option says so.
";

/// Of `run`.
pub const RUN: &[u8] = b"Usage: ntboot run --hive F --script F [OPTIONS]

Play a script on a copy of the hive and print what each boot does.

  --hive F        the SYSTEM hive
  --script F      the script ('ntboot help script')
  --log F         the hive's log (SYSTEM.LOG), which recovers a dirty hive
  --boot-ini F    boot.ini
  --system ARC    this system's ARC path
                  [default: multi(0)disk(0)rdisk(0)partition(1)\\WINDOWS]
  --save-hive F   write the hive as the disk holds it at the end
  --save-log F    write the log as the disk holds it at the end

Example: a script of the lines boot, go, logon, off plays one good boot.
The report: 'ntboot help report'.
";

/// Of `safe`.
pub const SAFE: &[u8] = b"Usage: ntboot safe --hive F [OPTIONS]

Print what a boot in safe mode would start, if nothing fails.

  --hive F        the SYSTEM hive
  --log F         its log, which recovers a dirty hive
  --boot-ini F    boot.ini; its default entry has the switch /SAFEBOOT:
  --system ARC    this system's ARC path
                  [default: multi(0)disk(0)rdisk(0)partition(1)\\WINDOWS]
  --mode MODE     minimal or network, whatever boot.ini says
  --images        list a driver by the name of its image, as vga.sys, too

Without --mode and without a switch nothing is left out.
";

/// Of `control`.
pub const CONTROL: &[u8] = b"Usage: ntboot control --hive F --commands F [--log F]

Boot the Default set with no failures, then start and stop services.

  --hive F       the SYSTEM hive
  --commands F   a command a line: start NAME, stop NAME, stopall NAME, list
  --log F        the hive's log, which recovers a dirty hive

start starts what NAME needs first. stop is refused while another service needs
NAME; stopall stops those first.
";

/// Of `whatif`.
pub const WHATIF: &[u8] = b"Usage: ntboot whatif --hive F [OPTIONS]

For each entry that a boot starts, print what is lost when it fails, and when it
is disabled.

  --hive F       the SYSTEM hive
  --of NAME      only this entry, and everything that leans on it
  --log F        the hive's log, which recovers a dirty hive
  --boot-ini F   boot.ini
  --system ARC   this system's ARC path
                 [default: multi(0)disk(0)rdisk(0)partition(1)\\WINDOWS]
";

/// Of `show`.
pub const SHOW: &[u8] = b"Usage: ntboot show --hive F [--log F]

Print the hive as text: keys indented by two spaces a level, and each value as
= NAME TYPE LENGTH DATA, the data in hexadecimal.

  --hive F   the hive
  --log F    its log, which recovers a dirty hive
";

/// Of `key`.
pub const KEY: &[u8] = b"Usage: ntboot key --hive F [OPTIONS]

Print one key readably: when it was written, its class, values and subkeys.

  --hive F     the hive
  --key PATH   the key [default: the root]; CurrentControlSet is the Default set
  --depth N    also N levels below it [default: 0]
  --security   also the security descriptors
  --log F      the hive's log, which recovers a dirty hive
";

/// Of `find`.
pub const FIND: &[u8] = b"Usage: ntboot find --hive F --text T [OPTIONS]
       ntboot find --hive F --hex BYTES [OPTIONS]

Print where a text stands in a hive: in names of keys and values, and in data
that are text. The exit is 8 where it stands nowhere.

  --hive F     the hive
  --text T     the text, upper or lower case; \\u and four hexadecimal digits
               are one unit
  --hex BYTES  these bytes in data of any type, as 4d5a90; also with --text
  --names      look for T in names alone
  --data       look for T in data alone
  --exact      the whole name, text or data, not a part of it
  --key PATH   only this key and those below it; CurrentControlSet is the
               Default set
  --log F      the hive's log, which recovers a dirty hive
";

/// Of `services`.
pub const SERVICES: &[u8] = b"Usage: ntboot services --hive F [OPTIONS]

List the drivers and services of a control set, one a line, with everything that
a boot asks of them and when their keys were last written.

  --hive F       the SYSTEM hive
  --log F        its log, which recovers a dirty hive
  --set N        control set N [default: the Default set]
  --start N      only those of Start N: 0 boot, 1 system, 2 automatic,
                 3 demand, 4 disabled
  --kind KIND    only drivers (driver) or services (service)
  --since TIME   only those whose key was written at that time or later, as
                 2012-04-04 or 2012-04-04T11:47:06Z (UTC)
  --sort BY      name, written (the newest first) or order (the boot's)
                 [default: as in the registry]

A field that is not there is -, one that is not well formed (TYPE DATA). Marks
at the end of a line: no-image, image-outside, no-dll, dll-outside; outside is
outside of the Windows folder. order: the phase and the number of the attempt.
";

/// Of `check`.
pub const CHECK: &[u8] = b"Usage: ntboot check --hive F [OPTIONS]

Print everything suspicious about the services of a control set. The exit is 8
where something was found.

  --hive F   the SYSTEM hive
  --log F    its log, which recovers a dirty hive
  --set N    judge control set N alone [default: the Default set, and Select]
  --order    also entries of unlisted groups and tags
";

/// Of `devices`.
pub const DEVICES: &[u8] = b"Usage: ntboot devices --hive F [OPTIONS]

Print the drivers that Plug and Play loads for each device instance, in load
order, and what prevents it. The exit is 8 where something was found.

  --hive F     the SYSTEM hive
  --log F      its log, which recovers a dirty hive
  --set N      use control set N [default: the Default set]
  --of NAME    only the devices that use the driver NAME
  --findings   only the devices with a finding
  --ids        also which entry of CriticalDeviceDatabase matches each device
  --critical   also the entries of that database whose driver is not Start 0

NAME is a key below Services; \\u and four hexadecimal digits are one unit.
";

/// Of `diff`.
pub const DIFF: &[u8] = b"Usage: ntboot diff --hive F [OPTIONS]

Compare the services and orders of two control sets, and the boots they give.
The exit is 8 where something differs.

  --hive F       the first hive
  --set N        its control set [default: the Default set]
  --with F       the second hive [default: the first]
  --with-set N   its control set [default: Default; in one hive LastKnownGood]
  --log F        the log of the first hive
  --with-log F   the log of the second
  --all          compare every key and value of the two sets
";

/// Of `export`.
pub const EXPORT: &[u8] = b"Usage: ntboot export --hive F --reg F [OPTIONS]

Write a key with all below it as registry text (UTF-16, version 5.00).

  --hive F     the hive
  --reg F      the file to write
  --log F      the hive's log, which recovers a dirty hive
  --key PATH   the key, as ControlSet001\\Services [default: the root]
";

/// Of `import`.
pub const IMPORT: &[u8] = b"Usage: ntboot import --hive F --reg F [OPTIONS]

Apply a registry text (version 5.00) to a copy of the hive, all or nothing.

  --hive F          the hive
  --reg F           the registry text
  --log F           the hive's log, which recovers a dirty hive
  --save-hive F     write the changed hive; without it nothing is kept
  --save-log F      write its log
  --encoding E      utf-16 or utf-8 [default: utf-16]
  --current N       take keys under CurrentControlSet to set N, 1 to 999, or
                    to the Default set with the word default
  --lenient         pass over deletions of what is not there
";

/// Of `twin`.
pub const TWIN: &[u8] = b"Usage: ntboot twin --hive F [OPTIONS]

Load a hive kept as two whole copies, repair the one that is not whole, and set
the Default control set.

  --hive F        the first copy
  --alt F         the second copy, or the log with --scheme log
  --scheme S      alt (two copies) or log (a hive and its log) [default: alt]
  --default N     set Select\\Default to N, from 1 to 999
  --save-hive F   write the first copy
  --save-alt F    write the second copy or the log
";

/// Of `salvage`.
pub const SALVAGE: &[u8] = b"Usage: ntboot salvage --hive F [OPTIONS]

Read what can be read of a damaged hive, or of a dirty one without its log, and
print each fault and what it takes away. The exit is 8 where a fault was found.

  --hive F        the hive
  --log F         its log
  --save-hive F   write a sound hive of everything that was read
  --by-parent     also look for children that no list leads to
";

/// Of `replay`.
pub const REPLAY: &[u8] = b"Usage: ntboot replay --hive F [OPTIONS]

Apply the transaction logs that Windows writes to a dirty hive. The exit is 8
where they end at a broken entry, or do not make the hive clean.

  --hive F        the hive
  --log F         its log: SYSTEM.LOG
  --log1 F        SYSTEM.LOG1
  --log2 F        SYSTEM.LOG2
  --save-hive F   write the hive as the logs leave it, clean
";

/// Of `make`.
pub const MAKE: &[u8] = b"Usage: ntboot make N [--save-hive F]

Make a hive of N services, from 1 to 10000, boot it once up to a logon, and
print a line of totals.

  --save-hive F   write the hive as the boot left it
";

/// Of `help`.
pub const HELP: &[u8] = b"Usage: ntboot help [COMMAND | TOPIC]

Print the page of a command, or of one of the topics exits, script and report.
'ntboot COMMAND --help' prints the same page.
";

/// Of `version`.
pub const VERSION: &[u8] = b"Usage: ntboot version

Print the name of the program and its version.
";

/// The exit codes.
pub const EXITS: &[u8] = b"Exit status:

   0  done, or a line of the report says what was refused
   1  bad usage: the words or the system's path could not be read
   2  a file to read is not there
   3  the script, or the text of commands, has a fault
   4  boot.ini is too long or has too many entries
   5  the hive with its log has a fault
   6  a file could not be read
   7  the report or a file could not be written
   8  something was found, where a command looks for something (find: nothing
      was found)
   9  out of memory
  10  the registry text has a fault

Add -v to see on standard error why a command was refused. A boot that fails is
no error: look for the line verdict.
";

/// The lines of a script.
pub const SCRIPT: &[u8] =
    b"A script has one event a line. Words with spaces stand in \"quotes\"; lines that
begin with # are comments.

  boot [K] [lkg]            boot entry K of boot.ini, lkg: LastKnownGood
  go [N]                    N steps of the boot, or all
  logon                     a user logs on
  off                       shut down
  fail NAME N               the next N attempts to start NAME fail
  vital NAME                a boot without NAME at the end of phase boot stops
  set PATH VALUE dword N    set a value; also: sz TEXT, multi TEXT.., binary HEX
  delete PATH VALUE         delete a value
  make PATH                 make a key
  remove PATH               delete a key and all below it
  flush                     commit the edits
  cut now KEEP              cut the power; KEEP is none, all, odd or torn
  cut CALL N KEEP           cut it at the N-th CALL: read, write or sync
  fault CALL N              let the N-th CALL fail

PATH is as CurrentControlSet\\Services\\Disk. N is decimal.
";

/// The lines of a report.
pub const REPORT: &[u8] = b"The report of a run, a fact a line:

  start K                   boot K of the script
  entry K PATH              the entry of boot.ini
  load SEQ clean            the hive was loaded; recovered: by its log
  set N default             the control set taken; or last-known-good
  select C D F L            Current, Default, Failed, LastKnownGood
  phase WORD                boot, system, automatic or done begins
  try NAME ok               NAME was started; or failed ignored, failed logged,
                            failed fall-back, failed stop
  unmet NAME                NAME was not tried: what it needs was not started
  vital NAME missing        a vital driver was not started
  commit WHAT SEQ           a change is on the disk: begin, save, flush or off
  save refused WORD         full or no-number: a good boot could not be saved
  logon, edit ok, flush nothing
  refused EVENT WORD        the event was refused
  verdict WORD              how the boot ended: good, good-unsaved, running,
                            fall-back, stopped, cut, device, full, no-number,
                            no-entry, other-loader, no-system, no-control-set,
                            no-last-known-good
  end                       the script is at its end
";

/// Of `why`.
pub const WHY: &[u8] = b"Usage: ntboot why --hive F [OPTIONS] NAME

Print where an entry stands in the last boot, what became of it, and what it
lacked, down to the root.

  --hive F       the SYSTEM hive
  --script F     a script to play first, without ordered cuts and faults
                 [default: boot, go]
  --log F        the hive's log, which recovers a dirty hive
  --boot-ini F   boot.ini
  --system ARC   this system's ARC path
                 [default: multi(0)disk(0)rdisk(0)partition(1)\\WINDOWS]

NAME is a key below Services; \\u and four hexadecimal digits are one unit.
";

/// Of `graph`.
pub const GRAPH: &[u8] = b"Usage: ntboot graph --hive F [OPTIONS]

Print the entries of the last boot and their needs as a graph in the language of
Graphviz: ntboot graph --hive SYSTEM | dot -Tsvg > boot.svg

  --hive F       the SYSTEM hive
  --of NAME      only what NAME needs and what needs NAME
  --script F     a script to play first, without ordered cuts and faults
                 [default: boot, go]
  --log F        the hive's log, which recovers a dirty hive
  --boot-ini F   boot.ini
  --system ARC   this system's ARC path
                 [default: multi(0)disk(0)rdisk(0)partition(1)\\WINDOWS]
";

/// Of `sweep`.
pub const SWEEP: &[u8] = b"Usage: ntboot sweep --hive F --script F [OPTIONS]

Cut the power at each write and sync that one event makes, and print whether
the hive then loads as before the event or as after it.

  --hive F        the SYSTEM hive
  --script F      a script with a line sweep in front of the event, and no cut
                  or fault; lines after the event are not played
  --log F         the hive's log, which recovers a dirty hive
  --boot-ini F    boot.ini
  --system ARC    this system's ARC path
                  [default: multi(0)disk(0)rdisk(0)partition(1)\\WINDOWS]

Each line has a result for none, all, every other one (odd) of the sectors not
yet synced kept, and for all of them unreadable (torn).
";
