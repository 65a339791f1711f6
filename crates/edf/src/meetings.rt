// The worked meetings, and the hurried tests that a plan can fool.
ghost use Rattle.edf.specs.Meetings.{WorkedMeetingsHold};
ghost use Rattle.edf.specs.Mistakes.{ClassicMistakesShown, HurriedTestsMislead};

// Every worked meeting of the list comes out by the rules as it is written.
pub fn worked_meetings_hold()
    ensures { WorkedMeetingsHold }
{}

// The cases of the classic mistakes come out as they are written.
pub fn classic_mistakes_shown()
    ensures { ClassicMistakesShown }
{}

// Spans from 0 alone, and the sum of m × W / (k × T), accept plans that no timetable serves.
pub fn hurried_tests_mislead()
    ensures { HurriedTestsMislead }
{}
