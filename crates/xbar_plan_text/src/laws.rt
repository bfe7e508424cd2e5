//! Laws of the texts of plans, for use by other crates. Each function does nothing; its contract
//! is the law.

ghost use Rattle.std.specs.Prelude.{◌≡◌, Ok};
ghost use Rattle.toml.specs.Data.{Members};
ghost use Rattle.xbar_plan.specs.Lawful.{IsLawful};
ghost use Rattle.xbar_plan.specs.Tables.{Tables};
ghost use Rattle.xbar_plan_text.specs.Document.{DifferInVersion, plan_of_document};
ghost use Rattle.xbar_plan_text.specs.Written.{document_in_version_2};

/// Two documents with the same four lists, one in version 1 and one in version 2: if the first is
/// accepted, so is the second, with the same tables.
pub fn version_1_reads_the_same_as_version_2()
    ensures { (one two : Members) (tables : Tables) → DifferInVersion one two →
        plan_of_document one ≡ Ok tables → plan_of_document two ≡ Ok tables }
{}

/// The document that is written for lawful tables in version 2 reads back as the same tables.
pub fn lawful_tables_read_back()
    ensures { (plan : Tables) → IsLawful plan →
        plan_of_document (document_in_version_2 plan) ≡ Ok plan }
{}
