//! What is put as a list of jobs is read again. Each law is a function without a body.
ghost use Rattle.std.specs.Prelude.{◌≡◌, ℕ, List, None, Ok, Option, Result};
ghost use Rattle.client_words.specs.JobWriting.{AreJobs, IsJob};
ghost use Rattle.client_words.specs.declared.fault.Fault.{Fault};
ghost use Rattle.client_words.specs.declared.job.Job.{Job};
ghost use Rattle.client_desk.specs.JobList.{job_due, jobs_with, jobs_without};

/// Jobs that can stand together can do so with a new one, whose library and folder none of them has.
pub fn a_list_with_a_new_job_can_stand_together()
    ensures value { (jobs : List Job) (new : Job) → AreJobs jobs → IsJob new → ◌≡◌ {A = Result (Option Job) Fault} (job_due jobs new) (Ok None) → AreJobs (jobs_with new jobs) }
{}

/// And so can those that are left as the job of a folder is taken away.
pub fn a_list_without_the_job_of_a_folder_can_stand_together()
    ensures value { (jobs : List Job) (dir : List ℕ) → AreJobs jobs → AreJobs (jobs_without dir jobs) }
{}
