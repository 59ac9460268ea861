// Sheets worked through: document 01's table, document 001's examples for every range and rule, document 02's
// remainders, procedures, names that ask once and infinities, sheets for each refusal, and what the services are lent.
// The answers, made by the same function as the program's, go to standard output.
#![tactic(auto)]

// Titles, sheets and reports.
mod show;
// The name records and terms that more than one case has.
mod terms;
// Document 01's table.
mod table;
// Document 001's examples.
mod examples;
// Document 02's remainders.
mod remainders;
// Document 02's procedures.
mod routines;
// Document 02's names that ask once.
mod once;
// Document 02's moon table and infinities.
mod moon;
// Refusals.
mod refused;
// Words and bytes lent, and follow.
mod lent;
// Terms that try the automata.
mod tried;

fn main(rt: HostRuntime) {
    table::rows(&rt);
    table::more_rows(&rt);
    examples::all(&rt);
    refused::sheets(&rt);
    refused::more_sheets(&rt);
    refused::enclosed(&rt);
    refused::pairs(&rt);
    lent::compared(&rt);
    lent::followed(&rt);
    tried::blocks(&rt);
    tried::calls(&rt);
    remainders::rows(&rt);
    routines::saints(&rt);
    routines::inlined(&rt);
    routines::weights(&rt);
    routines::variables(&rt);
    routines::ids(&rt);
    routines::parameters(&rt);
    routines::expressions(&rt);
    once::rows(&rt);
    moon::rows(&rt);
}
