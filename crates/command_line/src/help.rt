//! What the help of the commands says, within 80 columns.

/// The version of the program, which is that of the changelog.
pub const VERSION: &str = "0.2.0";

/// What `--version` says after the name. A program cannot know how it was built, so it claims no
/// proof.
pub const LONG_VERSION: &str = "\
0.2.0
written in Rattle, logic dac8208d650f15bf; proved if `rt run` built it";

/// What the program is for, in a line.
pub const PORTFARM: &str = "\
Checks plans that rebuild a Debian port, before anything is built";

/// What the help of the program says behind it.
pub const PORTFARM_MORE: &str = "\
A plan has lanes of instructions, each over one chroot, which share one archive
that only grows.

With no word at all, portfarm reads the four texts from standard input, divided
by the first three lines that are exactly `%%`, and answers as `check` does. `-`
in place of the name of one file is standard input.

Example:
  portfarm check packages sources farm plan

Status:
  0  accepted, listed, certified, stepped without a trap, finished, shown, or
     help
  1  refused or trapped: the answer tells where and why
  2  wrong words, or a schedule that is not one
  3  a file cannot be read, out of memory, a lane cannot be started, or the
     answer cannot be written";

/// What `check` does, in a line.
pub const CHECK: &str = "\
Tells whether the plan is safe in every order of turns";

/// What the help of `check` says behind that line.
pub const CHECK_MORE: &str = "\
The answer is `accepted`, how many lanes and events there are, and what each
lane costs at most; or one line with the first thing that may go wrong, as
`refused 401 lane a instruction 3 X7 Depends`, `refused 402 lanes a b` for lanes
that would wait forever, or `refused 302 plan line 4`. With `--json` it is one
JSON object on a line.

Example:
  portfarm check packages sources farm plan

Status: 0 accepted, 1 refused, 2 wrong words, 3 nothing could be answered";

/// What `explain` does, in a line.
pub const EXPLAIN: &str = "\
Checks the plan and explains the answer";

/// What the help of `explain` says behind that line.
pub const EXPLAIN_MORE: &str = "\
The answer is that of `check`, and where the plan is refused, why. For a fault
of a text these are the line and what was expected there. For an instruction
that may go wrong they are its line in the plan and the first reason; and the
same for each further lane that has one. With `--json` it is one JSON object on
a line, in which `reasons` is a list of objects and `warnings` one of lines.

With `--cert` the answer is that of `verify-cert`, and where the certificate is
refused, why: its line, what was expected there, and the line of the plan.

Example:
  portfarm explain packages sources farm plan

Status: 0 accepted, 1 refused, 2 wrong words, 3 nothing could be answered, or
out of memory after the verdict";

/// What `list` does, in a line.
pub const LIST: &str = "\
Prints the plan with its blocks expanded, an instruction a line";

/// What the help of `list` says behind that line.
pub const LIST_MORE: &str = "\
The answer is a plan that means the same, and that can be checked in place of
the given one. The plan need not be safe. Where a text cannot be read, the
answer is its first fault, as `refused 303 plan line 2`.

With `--number` two numbers stand before each line: that of the instruction in
its lane, as refusals tell it, and that of the line of the plan that it comes
from. A line that is not an instruction has `-` in place of the first.

Example:
  portfarm list packages sources farm plan > plan.expanded

Status: 0 listed, 1 refused, 2 wrong words, 3 nothing could be answered";

/// What `cert` does, in a line.
pub const CERT: &str = "\
Prints a certificate, by which anyone can check the plan";

/// What the help of `cert` says behind that line.
pub const CERT_MORE: &str = "\
The answer is the certificate of a plan that `check` accepts: `cert 1`, then a
line for what each lane knows of the archive after each of its waits and
publishes, and then an order in which all of them can be made. `verify-cert`
checks it without having to find it. Where `check` refuses the plan, the answer
is that refusal.

Example:
  portfarm cert packages sources farm plan > cert

Status: 0 certified, 1 refused, 2 wrong words, 3 nothing could be answered";

/// What `verify-cert` does, in a line.
pub const VERIFY_CERT: &str = "\
Tells whether a certificate shows that the plan is safe";

/// What the help of `verify-cert` says behind that line.
pub const VERIFY_CERT_MORE: &str = "\
A certificate says what each lane knows of the archive after each of its waits
and publishes, and an order in which all of them can be made. It is checked by
itself, and what it says is not trusted. The answer is `certified`: the plan is
then safe in whatever order its lanes take turns. Or it is one line with the
first fault: `refused 451 line 3` for a text that is no certificate of this
plan, `refused 452 lane b instruction 5` where a lane need not know what it
says, `refused 453 lane b instruction 2 X1 Missing` for an instruction that may
trap as far as it tells, or `refused 454 item 2` for an item of its order that
cannot be made. Where another text cannot be read, the answer is its first
fault, as `refused 303 plan line 2`.

Example:
  portfarm verify-cert packages sources farm plan cert

Status: 0 certified, 1 refused, 2 wrong words, 3 nothing could be answered";

/// What `step` does, in a line.
pub const STEP: &str = "\
Lets lanes take turns in a given order, and shows the result";

/// What the help of `step` says behind that line.
pub const STEP_MORE: &str = "\
Each turn takes one instruction of its lane, or one output of a publish; a lane
that waits in vain or has finished stays as it is. The answer is `ran` and the
number of turns, or the first trap with its place in the schedule; then what was
published, and of each lane how far it is, what it spent, and what its chroot
holds. The plan need not be safe. Where a text cannot be read, the answer is its
first fault.

After `@` comes the name of a file that has the schedule: lanes by their numbers
or names, with commas, blanks or newlines between them. Each must be a lane of
the plan.

Example, in which the first lane takes two turns and then the second one:
  portfarm step --schedule 0,0,1 packages sources farm plan

Status: 0 stepped without a trap, 1 trapped or refused, 2 wrong words or a
schedule that is not one, 3 nothing could be answered";

/// What `run` does, in a line.
pub const RUN: &str = "\
Runs an accepted plan, each lane in a thread of its own";

/// What the help of `run` says behind that line.
pub const RUN_MORE: &str = "\
Where `check` refuses the plan, the answer is that refusal, and nothing is run.
Else each lane takes its instructions in its own thread, and a lane that waits
sleeps until another has published what it waits for. Once all have ended, the
answer is `finished`, what was published in the order in which it came into the
archive, and of each lane what it spent and what its chroot holds. A build is an
instruction with declared outputs here: no package is built, and no file is
written. On a terminal, or with `--progress`, the error output tells meanwhile
of each publication and of each lane that begins to wait.

Example:
  portfarm run packages sources farm plan

Status: 0 finished, 1 refused, 2 wrong words, 3 nothing could be answered, or a
lane could not be started";

/// What `timeline` does, in a line.
pub const TIMELINE: &str = "\
Tells how long the plan takes, and what holds it up";

/// What the help of `timeline` says behind that line.
pub const TIMELINE_MORE: &str = "\
Where `check` refuses the plan, the answer is that refusal. Else each
instruction takes its cost in steps as time, each output of a publish takes one,
and each lane goes on as soon as it can. The answer tells when the plan ends;
for each lane when it ends and how long it is busy and idle; its longest idle
stretches and what it waits for there; the critical path, which is the chain of
instructions and waits that the end hangs on; what no plan of these builds can
be shorter than; and the builds with the least slack, which have to be shorter,
or to begin sooner, for the plan to end sooner.

With `--bars` there is a bar for each lane in place of the idle stretches: `#`
for builds, `=` for other instructions, `.` for waits. A critical path of more
than forty lines is shortened in the middle, unless `--full` is given.

Example:
  portfarm timeline --svg packages sources farm plan > plan.svg

Status: 0 shown, 1 refused, 2 wrong words, 3 nothing could be answered";

/// What `graph` does, in a line.
pub const GRAPH: &str = "\
Draws the builds of the plan and the waits between them";

/// What the help of `graph` says behind that line.
pub const GRAPH_MORE: &str = "\
The answer is a graph for `dot` of graphviz: a box for each build with its
publish, a cluster for each lane, and an edge for each wait, from the publish
that it waits for to the build behind it; dashed where another variant may let
the wait pass too, grey where the lane does not have to wait in the timed run of
`timeline`. The critical path is bold. Where lanes would wait forever, the
waits that hold each other up are bold instead, and the status is 1. Any other
plan that `check` refuses is answered by that refusal.

With `--needs` it shows which build needs which, and no lanes: an edge leads
from the recipe that gives a package to the one that is built with it in the
chroot, unless other edges lead from the one to the other. With `--of`, which
may be repeated, it shows all that the recipe needs directly, and all that needs
it. A plan that is refused is then always answered by that refusal.

Examples:
  portfarm graph packages sources farm plan | dot -Tsvg > plan.svg
  portfarm graph --of gmp packages sources farm plan | dot -Tsvg > gmp.svg

Status: 0 drawn, 1 refused, 2 wrong words, 3 nothing could be answered";

/// What `drive` does, in a line.
pub const DRIVE: &str = "\
Runs the lanes by a driver, which does what they are to do";

/// What the help of `drive` says behind that line.
pub const DRIVE_MORE: &str = "\
Lanes go on side by side. Before a lane goes on it asks for what it is to do
next, by a line on the output, as `start a 1 base build gcc-stage1 gcc 14-1 full
20 1000 stage1 , gcc 14-1~stage1`, and waits until standard input answers `done
a 1`. `failed a 1` ends the run, and so does `stop`, once what was begun is
answered.

With `--journal` the file keeps what was asked and done. The same words go on
where a run has stopped, whatever has stopped it: what is done is not asked for
again, and what was begun is, by `again` in place of `start`.

The last lines are those of `run`. A plan that is refused is not driven.

Example:
  portfarm drive --journal j packages sources farm plan

Status: 0 finished, 1 refused, 2 wrong words, 3 stopped, or something outside
of the plan failed";

/// What `status` does, in a line.
pub const STATUS: &str = "\
Tells where a drive stands, by its journal";

/// What the help of `status` says behind that line.
pub const STATUS_MORE: &str = "\
The journal is read as it stands, also while the drive goes on. The answer is
the run's name, what is published, built and done, and a line for each lane: how
many of its instructions are done, what it has spent, and what it is at, as
`asked 7 build gcc` for what is open, `next 7 build gcc` for what it asks for
next, or `waits 7 wait libgmp` with the output that it waits for. Of a plan that
is accepted it tells too how many steps are left, when each lane and the run
end, in steps from now on, and which builds that hangs on.

Example:
  portfarm status --journal j packages sources farm plan

Status: 0 told, 1 refused, 2 wrong words, 3 the journal is not of these texts,
or nothing could be answered";

/// What `after` does, in a line.
pub const AFTER: &str = "\
Makes the texts of what is left of a drive that has stopped";

/// The usage of `after`.
pub const AFTER_USAGE: &str = "\
portfarm after [OPTIONS] --journal <FILE>
           <PACKAGES> <SOURCES> <FARM> <PLAN> <DIR>";

/// What the help of `after` says behind that line.
pub const AFTER_MORE: &str = "\
The texts are the files `packages`, `sources`, `farm` and `sketch` of the
folder: the farm as it is now, with what the run has published in its archive
and the recipes that are left, and the lanes with what they have to build yet,
for `draft --rest`. What is built and not published is not built again. Where a
text was changed, an option gives it in place of that of the run.

The answer says what is published, left and open, with notes. Or it is a
refusal, as `refused 721 recipe gmp`; then nothing is written. A file that
`after` has not made is replaced with `--force` alone.

Example:
  portfarm after --journal j packages sources farm plan rest

Status: 0 made, 1 refused, 2 wrong words, 3 the journal is not of these texts,
or a file cannot be read or written, or is none that `after` has made";

/// What `--packages` of `after` is, in a line.
pub const NEW_PACKAGES: &str = "The packages text, where it was changed";

/// What `--sources` of `after` is, in a line.
pub const NEW_SOURCES: &str = "The sources text, where it was changed";

/// What `--farm` of `after` is, in a line.
pub const NEW_FARM: &str = "The farm text, where it was changed";

/// What `--sketch` of `after` is, in a line.
pub const NEW_SKETCH: &str = "Lanes and builds in place of those of the plan";

/// What `--without` does, in a line.
pub const WITHOUT: &str = "Give this recipe up";

/// What `--built` does, in a line.
pub const BUILT: &str = "This recipe is built, and its outputs are kept";

/// What `--again` does, in a line.
pub const AGAIN: &str = "Build this recipe anew";

/// What `--withdraw` does, in a line.
pub const WITHDRAW: &str = "Take this out of the archive";

/// What `--came` does, in a line.
pub const CAME: &str = "This came into the archive by hand";

/// What `--force` of `after` does, in a line.
pub const AFTER_FORCE: &str = "Replace files that `after` has not made";

/// What `draft` does, in a line.
pub const DRAFT: &str = "\
Drafts a plan that `check` accepts, from lanes and builds alone";

/// The usage of `draft`.
pub const DRAFT_USAGE: &str = "\
portfarm draft [--partial] [--rest] <PACKAGES> <SOURCES> <FARM> <SKETCH>
       portfarm draft [--partial] --lanes <N> <PACKAGES> <SOURCES> <FARM>";

/// What the help of `draft` says behind that line.
pub const DRAFT_MORE: &str = "\
The answer is a plan, with what has to be unpacked, configured, removed and
waited for around each build. A sketch is a plan that leaves out all but its
`lane`, `build` and `end` lines; a whole plan is one too. Its lanes are kept,
and each builds what it builds there, in that order. With `--lanes` in place of
it, every recipe of the farm is built in some lane, and lanes have what budget
they need. The plan is checked before it is printed.

Where a recipe cannot be built, the answer is why: `refused 801 recipe R` and
the first need that nothing can meet, or `refused 802 recipes R S ..` and a
circle of builds. With `--partial` such recipes are left out, and the error
output says so.

Example:
  portfarm draft --lanes 4 packages sources farm > plan

Status: 0 drafted, 1 refused, 2 wrong words, 3 nothing could be answered";

/// What `import` does, in a line.
pub const IMPORT: &str = "\
Makes the texts of a farm of whole indexes, by a wish";

/// How `import` is called, within 80 columns.
pub const IMPORT_USAGE: &str = "\
portfarm import [OPTIONS] --packages <INDEX> [--packages <INDEX>]..
           --sources <INDEX> [--sources <INDEX>].. <WISH> <DIR>";

/// What the help of `import` says behind that line.
pub const IMPORT_MORE: &str = "\
The texts are the files `packages`, `sources` and `farm` of the folder: what the
recipes of the wish need, closed over what that needs. A wish is a farm text
that leaves out what the indexes say. The answer is a line for each count, with
its limit, and notes, as on a need that nothing meets. Or it is a refusal, as
`refused 702 wish line 5` for a source that no index has; then nothing is
written. A file that import has not made is replaced with `--force` alone. For a
wish with `Targets`, or with a recipe `*`, builds are chosen, and the file `wish`
names them. One with `Build-Architecture` is for cross builds.

Each option that names an index takes one, and may be given again. `-` in place
of the name of one file is standard input.

Example:
  xzcat Packages.xz | portfarm import --packages - --sources Sources wish farm

Status: 0 made, 1 refused, 2 wrong words, 3 a file cannot be read or written, or
is none that import has made";

/// What the indexes of the archive are, in a line.
pub const ARCHIVE: &str = "Packages index of what is there at the beginning";

/// What the Packages indexes are, in a line.
pub const INDEXES: &str = "Packages index of what builds give";

/// What the Sources indexes are, in a line.
pub const SOURCE_INDEXES: &str = "Sources index";

/// What `--forbid` does.
pub const FORBID: &str = "A recipe that is not to be chosen for a target";

/// What `--force` does, in a line.
pub const FORCE: &str = "Replace files that import has not made";

/// What the wish is, in a line.
pub const WISH: &str = "The wish: architecture, recipes, chroots";

/// What the folder is, in a line.
pub const FOLDER: &str = "The folder of the texts that are made";

/// What the Packages index is, in a line.
pub const PACKAGES: &str = "Packages index: versions, sizes and relations";

/// What the Sources index is, in a line.
pub const SOURCES: &str = "Sources index: what each source needs to be built";

/// What the farm description is, in a line.
pub const FARM: &str = "The farm: architecture, archive, recipes, chroots";

/// What the plan is, in a line.
pub const PLAN: &str = "The plan: lanes of instructions, and blocks";

/// What the certificate is, in a line.
pub const CERTIFICATE: &str = "The certificate of the plan, as `cert` prints it";

/// What `--journal` names for `status`, in a line.
pub const JOURNAL_READ: &str = "The journal of the drive";

/// What `--cert` does, in a line.
pub const BY_CERT: &str = "Explain the answer to a certificate of the plan";

/// What the sketch is, in a line.
pub const SKETCH: &str = "A plan of which lanes and builds are taken alone";

/// What `--lanes` does, in a line.
pub const LANES: &str = "Build all recipes in so many lanes, 1 to 64";

/// What `--rest` does, in a line.
pub const REST: &str = "Build the recipes too that the sketch does not";

/// What `--partial` does, in a line.
pub const PARTIAL: &str = "Leave out what cannot be built";

/// What `--progress` does, in a line.
pub const PROGRESS: &str = "Tell of publications and waits on the error output";

/// What `--journal` does, in a line.
pub const JOURNAL: &str = "Keep what is asked and done, and go on by it";

/// What `--number` does, in a line.
pub const NUMBER: &str = "Put the number and the plan's line before each line";

/// What `--json` does, in a line.
pub const JSON: &str = "Answer with one JSON object on a line";

/// What `--svg` does, in a line.
pub const SVG: &str = "Answer with a picture for a browser";

/// What `--bars` does, in a line.
pub const BARS: &str = "Show a bar for each lane in place of its idle stretches";

/// What `--full` does, in a line.
pub const FULL: &str = "Show the whole critical path";

/// What `--needs` does, in a line.
pub const NEEDS: &str = "Draw which build needs which, and no lanes";

/// What `--of` does, in a line.
pub const OF: &str = "Draw what this recipe needs, and what needs it";

/// What `--schedule` does, in a line.
pub const SCHEDULE: &str = "Lanes in the order of turns, as 0,0,1; or @FILE";
