ghost use Rattle.fpl_check.specs.Laws.{AcceptedSpans, AcceptedIsNext, ChecksFitOverPrimes, ConclusionsAreZero};

/// What a check that passes says, whoever made the section: its rows are closed and span exactly
/// the source rows, so they give the standard table's next weight; and what each of its steps
/// concludes is derivably 0.
pub fn accepted()
    ensures spans { AcceptedSpans }
    ensures next { AcceptedIsNext }
    ensures zero { ConclusionsAreZero }
{}

/// Over a prime a check names a test that fails, and never an operation.
pub fn checks_over_primes()
    ensures { ChecksFitOverPrimes }
{}
