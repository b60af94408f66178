// Saved files: which bytes are lawful saves, and where others go wrong. Theorems, asked for by the contracts of functions that do nothing.
#![tactic(auto)]

ghost use Rattle.files.specs.Theorems.{FilesAreSaves, OneFileOneSheet, FilesAreJudged, FaultsArePlaced};

use rings::ring::Ring;

// A file leads to a sheet just where accepted calls lead to that sheet and it writes that file.
pub fn files_are_saves<R: Ring>()
    ensures { FilesAreSaves R.exact }
{}

// Two sheets that accepted calls lead to, and that write the same file, are the same.
pub fn one_file_one_sheet<R: Ring>()
    ensures { OneFileOneSheet R.exact }
{}

// Bytes read record by record lead to the same sheet as the calls that the whole file spells.
pub fn files_are_judged<R: Ring>()
    ensures { FilesAreJudged R.exact }
{}

// A file is bad at 0 for its header, and else where what follows the header begins to be no save.
pub fn faults_are_placed<R: Ring>()
    ensures { FaultsArePlaced R.exact }
{}
