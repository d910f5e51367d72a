// The laws of the lines of jobs.
ghost use Rattle.search_job_lines.specs.JobLineLaws.{LinesSayOneJob, OwnTextsAreJobLines};

use tree_levels::laws::jobs_can_be_taken;

/// A line is the text of at most one job.
pub fn lines_say_one_job()
    ensures { LinesSayOneJob }
{}

/// Where the depth is below 2^64, the text of each job at a depth of the tree is the line of that job, so it is read
/// unless memory runs out.
pub fn own_texts_are_job_lines()
    ensures { OwnTextsAreJobLines }
{
    jobs_can_be_taken();
}
