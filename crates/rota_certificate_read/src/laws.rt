//! The laws of the files of certificates and of facts. Each law holds for all texts, and does nothing when it runs.
ghost use Rattle.rota_core.specs.ScenarioTables.{ScenarioTables};
ghost use Rattle.std.specs.Prelude.{ℕ};
ghost use Rattle.rota_certificate_read.specs.CertificateLayout.{certificate};
ghost use Rattle.rota_certificate_read.specs.FactsLayout.{facts};
ghost use Rattle.rota_layout.specs.OneMeaning.{OneMeaning};

/// For each scenario and number of weeks, every text spells one certificate or has one fault, and never both.
#[tactic(auto, using(rota_layout::proofs::ReadingLaws::one_meaning))]
pub fn each_text_means_one_certificate()
    ensures { (tables : ScenarioTables) (weeks : ℕ) → OneMeaning (certificate tables weeks) }
{}

/// For each scenario and number of weeks, every text spells one list of facts or has one fault, and never both.
#[tactic(auto, using(rota_layout::proofs::ReadingLaws::one_meaning))]
pub fn each_text_means_one_list_of_facts()
    ensures { (tables : ScenarioTables) (weeks : ℕ) → OneMeaning (facts tables weeks) }
{}
