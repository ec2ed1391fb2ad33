//! Laws of the definitions that contracts cite. These functions do nothing: a caller learns a law from the
//! contract.

ghost use Rattle.deno_graph_json.specs.Read.Expected.{IsPossible};

use crate::expected::Expected;

/// Ensures that nothing impossible is expected: some value of the type is as expected.
pub fn some_value_is_as_expected(expected: Expected)
    ensures { IsPossible expected }
{}
