// What the sheet means: the three states of a lever, settings, crews, forbidden groups, the table and the cut list.
// Read specs/States.antt, Crews.antt, Frames.antt, Tables.antt, CutLists.antt and Shown.antt, in this order; specs/Laws.antt
// says what is so of them, and specs/SmallFrames.antt has ten frames with their tables. There is no code here to run: each
// function carries one law as its promise, so that the law is proved.
#![tactic(auto)]

ghost use Rattle.meaning.specs.Laws.{MethodIsComplete, CombinationFollows, CombinationIsForbidden};
ghost use Rattle.meaning.specs.Laws.{ForbiddenIsExcluded, OrderIsStrict, SomeTable, OneTable, TableCovers};
ghost use Rattle.meaning.specs.Laws.{NoLinesNoTable, NothingPossible, OtherLevers, OneMoreLine};
ghost use Rattle.meaning.specs.Laws.{CutListIsRight, CutListIsManageable, SomeCutList, OneCutList};
ghost use Rattle.meaning.specs.SmallFrames.{SmallFrames};

// Groups that cover each manageable line, and each manageable combination of two of them, cover every forbidden group.
pub fn method_is_complete()
    ensures { MethodIsComplete }
{}

// A setting that shows a combination shows one of the two groups.
pub fn combination_follows()
    ensures { CombinationFollows }
{}

// A manageable combination of two forbidden groups is forbidden.
pub fn combination_is_forbidden()
    ensures { CombinationIsForbidden }
{}

// A manageable group is forbidden just when each setting that shows it, whatever the crew, shows a line.
pub fn forbidden_is_excluded()
    ensures { ForbiddenIsExcluded }
{}

// The table's order is strict and total.
pub fn order_is_strict()
    ensures { OrderIsStrict }
{}

// Each frame has a table.
pub fn some_table()
    ensures { SomeTable }
{}

// A frame has only one table.
pub fn one_table()
    ensures { OneTable }
{}

// A group of the table covers each forbidden group.
pub fn table_covers()
    ensures { TableCovers }
{}

// The table of no lines is empty.
pub fn no_lines_no_table()
    ensures { NoLinesNoTable }
{}

// No setting is possible just when the table is the group of no items alone.
pub fn nothing_possible()
    ensures { NothingPossible }
{}

// A lever that no line names changes no table, fitted or retired.
pub fn other_levers()
    ensures { OtherLevers }
{}

// Whether one more line makes a group forbidden can be read off the table of the lines so far.
pub fn one_more_line()
    ensures { OneMoreLine }
{}

// A cut list takes lines in force only, in order, permits exactly the possible settings, and needs each of its lines.
pub fn cut_list_is_right()
    ensures { CutListIsRight }
{}

// A line that the crew can't manage is on no cut list.
pub fn cut_list_is_manageable()
    ensures { CutListIsManageable }
{}

// Each frame has a cut list.
pub fn some_cut_list()
    ensures { SomeCutList }
{}

// A frame has only one cut list.
pub fn one_cut_list()
    ensures { OneCutList }
{}

// Each of ten small frames has its table.
pub fn small_frames_stand()
    ensures { SmallFrames }
{}
