// The law of vacancies: one of those that wait ranks first.
ghost use Rattle.adm_waiting.specs.Waiting.{OneIsFirst};

/// Where as many lots are drawn as children wait, and no two of them are equal, one ranks first.
pub fn one_is_first()
    ensures { OneIsFirst }
{}
