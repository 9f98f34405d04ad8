// The laws of shelves: functions that do nothing, each with a theorem for its contract.
ghost use Rattle.shelves.specs.Standing.{ClosedAreHopeless, FilingStands};
ghost use Rattle.shelves.specs.Surveys.{SurveysGreatest, SurveysDetermined};

// What a survey files is the greatest closed set without the covered codes.
pub fn surveys_are_greatest()
    ensures { SurveysGreatest }
{}

// No two sets and no two numbers of rounds fit one survey, and no two plans are a projection's best.
pub fn surveys_are_determined()
    ensures { SurveysDetermined }
{}

// From a position of a closed set that rests on hopeless shelves no goal position is reached: one step of soundness.
pub fn closed_sets_are_hopeless()
    ensures { ClosedAreHopeless }
{}

// An opening, a filing of a closed set and a plan leave hopeless shelves and a verdict that is right, and take nothing back.
pub fn filing_stands()
    ensures { FilingStands }
{}
