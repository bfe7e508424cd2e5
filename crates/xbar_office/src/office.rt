ghost use Rattle.std.specs.Prelude.{◌≡◌, ◌<◌, length, [], IfOk, OnOk, OnErr};
ghost use Rattle.xbar_office.specs.LawfulSet.{IsLawfulSet};
ghost use Rattle.xbar_office.specs.Whole.{whole as whole_of};
ghost use Rattle.xbar_office.specs.Closed.{closed, NamesFieldsOnce};

use crate::job::Job;
use crate::laws::job_is_in_range;
use crate::reply::Reply;
use crate::whole;
use std::alloc::{AllocError, Global};
use std::marker::Model;
use xbar_equip::{Crosspoint, Path};
use xbar_plan::Plan;
use xbar_plan::laws::every_plan_is_lawful;

/// An office with one marker, which does jobs whole.
#[derive(Debug, Drop)]
pub struct Office<'p> {
    plan: &'p Plan,
    paths: Vec<Path>,
}

impl<'p> Model for Office<'p> {
    ghost use Rattle.xbar_office.specs.State.{State};
    ghost use Rattle.xbar_office.specs.LawfulSet.{IsLawfulSet};

    ghost Value = { State };

    ghost view = { λ a. record { plan = a.plan.now; paths = a.paths.items } };

    ghost invariant = { λ a. IsLawfulSet a.plan.now a.paths.items };
}

impl<'p> Office<'p> {
    /// An office with no path. This allocates nothing.
    pub fn open(alloc: Global, plan: &'p Plan) -> Self
        ensures { result ≡ record { plan = plan.now; paths = [] } }
    {
        Office {
            plan,
            paths: Vec::new(alloc),
        }
    }

    /// Does a job whole and returns its reply. If memory runs out, nothing changes.
    pub fn whole(&mut self, job: Job) -> Result<Reply, AllocError>
        ensures reply { IfOk result (λ reply.
            reply ≡ (whole_of self.old.plan self.old.paths job).reply) }
        ensures ok { OnOk result (self.new ≡ record self.old {
          paths =
              (whole_of self.old.plan self.old.paths job).paths;
        }) }
        ensures err { OnErr result (self.new ≡ self.old) }
        ensures memory { OnErr result (length self.old.paths < length
            (whole_of self.old.plan self.old.paths job).paths) }
    {
        job_is_in_range(&job);
        every_plan_is_lawful(self.plan);
        match job {
            Job::Dial(line) => whole::dial(self.plan, &mut self.paths, line),
            Job::Complete(line, dialled) => {
                whole::complete(self.plan, &mut self.paths, line, dialled)
            }
            Job::Release(line) => Ok(whole::release(self.plan, &mut self.paths, line)),
        }
    }

    /// The paths of the office, in order.
    pub fn paths(&self) -> &[Path]
        ensures paths { result.now ≡ self.now.paths }
        ensures lawful { IsLawfulSet self.now.plan self.now.paths }
    {
        self.paths.as_slice()
    }

    /// The closed crosspoints: those of each path, in the order in which they are closed.
    pub fn crosspoints(&self, alloc: Global) -> Result<Vec<Crosspoint>, AllocError>
        ensures closed { IfOk result (λ all. all.items ≡ closed self.now.paths) }
        ensures once { IfOk result (λ all. NamesFieldsOnce all.items) }
    {
        let mut all = Vec::new(alloc);
        for path in &self.paths {
            all.extend_from_slice(&path.crosspoints())?;
        }
        Ok(all)
    }
}
