//! Laws of the definitions, each the contract of a function with an empty body.

ghost use Rattle.std.specs.Prelude.{◌≤◌};
ghost use Rattle.four_state.specs.Configuration.{Configuration, IsLine, stations};
ghost use Rattle.four_state.specs.Laws.{ListsPrivileges, SomeoneIsPrivileged};

/// The limits in numbers: a line has 2 to 64 stations.
pub fn limits_in_numbers()
    ensures least { (line : Configuration) → IsLine line → 2 ≤ stations line }
    ensures most { (line : Configuration) → IsLine line → stations line ≤ 64 }
{}

/// The list of privileges has exactly the pairs whose guard is true.
pub fn list_of_privileges()
    ensures { ListsPrivileges }
{}

/// In every configuration at least one privilege is present.
pub fn someone_is_privileged()
    ensures { SomeoneIsPrivileged }
{}
