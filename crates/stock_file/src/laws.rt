ghost use Rattle.stock_file.specs.Law.{HasOneSpelling, ReadsBackStock};

/// The laws of the texts of saved stocks: a contract, with nothing to run.
pub fn laws_of_texts()
    ensures back { ReadsBackStock }
    ensures one { HasOneSpelling }
{}
