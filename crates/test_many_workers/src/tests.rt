mod calls;
mod crashing;
mod crowd;
mod lying;
mod meeting;
