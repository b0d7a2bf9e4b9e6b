//! Files that are read for the rows that meet a filter: what they mean, and how many bytes are fetched of them. Each function's contract is a law, proved in `proofs/`.
#![tactic(auto)]

ghost use Rattle.laws_scan.specs.Laws.{ScanIsFiltered};

/// Of a file that means a table, a scan means the rows that meet the filter, without empty batches, in the columns asked for.
pub fn scan_is_filtered()
    ensures { ScanIsFiltered }
{}
