//! Laws of acceptance; each is the one clause of a function that does nothing.
//!
//! - `a_block_leads_where_its_tests_pass`: the relation and the tests say the same of a block.
//! - `a_file_is_accepted_where_it_has_no_fault`: and of a file within the limits.
ghost use Rattle.std.specs.Prelude.{◌≡◌, ◌↔◌, ℕ, List, None};
ghost use Rattle.sj_lang.specs.Code.{Code};
ghost use Rattle.sj_lang.specs.FileAt.{FileAt, ProtocolAt};
ghost use Rattle.sj_acceptance.specs.Environment.{Env};
ghost use Rattle.sj_acceptance.specs.Follows.{Follows};
ghost use Rattle.sj_acceptance.specs.EnvAt.{EnvAt, env_of};
ghost use Rattle.sj_acceptance.specs.Faults.{first_fault};
ghost use Rattle.sj_acceptance.specs.Tests.{code_tests, after_code};
ghost use Rattle.sj_acceptance.specs.FileTests.{tests_of};
ghost use Rattle.sj_acceptance.specs.Accepted.{IsAccepted};
ghost use Rattle.sj_lang.specs.Limits.{IsWithin, limits};

/// A block leads to an environment exactly where its tests pass, and then
/// to the one that it leaves.
pub fn a_block_leads_where_its_tests_pass()
    ensures { (ps : List ProtocolAt) (parties : List ℕ) (code : Code) (env : EnvAt) (next : Env)
        → Follows ps parties code (env_of env) next
        ↔ ((first_fault (code_tests ps parties env code) ≡ None) × (next ≡ env_of (after_code ps env code))) }
{}

/// A file is accepted exactly where it is within the limits and none of its tests fails.
pub fn a_file_is_accepted_where_it_has_no_fault()
    ensures { (f : FileAt) → IsAccepted f ↔ (IsWithin limits f × (first_fault (tests_of f) ≡ None)) }
{}
